//! Numbers modulo 2^32.

ghost use Rattle.std.specs.Prelude.{◌≡◌, length, List};
ghost use Rattle.flight_cache.specs.Meaning.{mixed};
ghost use Rattle.mask_keys.specs.Numbers.{flag_of, length_word, word_of};

use flight_cache::ShardSum;

/// A word stays below this.
const WORD_BOUND: i64 = 4_294_967_296;

/// A number modulo 2^32.
pub fn word(number: i64) -> u32
    ensures { result ≡ word_of number }
{
    number.rem_euclid(WORD_BOUND) as u32
}

/// Adds a number.
pub fn add_word(number: i64, sum: &mut ShardSum)
    ensures { sum.new ≡ mixed sum.old (word_of number) }
{
    sum.add(word(number));
}

/// Adds 0 or 1.
pub fn add_flag(flag: bool, sum: &mut ShardSum)
    ensures { sum.new ≡ mixed sum.old (flag_of flag) }
{
    sum.add(u32::from(flag));
}

/// Adds the length of a list.
pub fn add_length<T>(list: &[T], sum: &mut ShardSum)
    ensures { sum.new ≡ mixed sum.old (length_word list.now) }
{
    sum.add((list.len() as u64 % WORD_BOUND as u64) as u32);
}
