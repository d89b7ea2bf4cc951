//! The laws of the cache machine, each over every legal history. The functions do nothing: their contracts are the laws.
ghost use Rattle.evict_core.specs.Laws.{NoneIsLegal, MoreIsLegal, FrontIsLegal, ClaimsOnce, FillsOnce, ReadyWasFilled, StaysInBudget, StaysInLimit};
ghost use Rattle.evict_core.specs.Laws.{NoneFits, MoreFits, StaysInHardLimit};
ghost use Rattle.evict_core.specs.Laws.{FliesWherePending, PinsAreHeld, HeldArePins, GivenWereTaken, HeldIsKept, EachIsPinnable, PinsAfterAll, OneHitMore};
ghost use Rattle.evict_core.specs.Laws.{CountsAreOfSteps, TrimsLeast};

/// What makes a history legal: the empty one is, and so are a legal one with a step that may follow, and its beginnings.
pub fn legal<K: Eq, V>()
    ensures none { NoneIsLegal V K.eq }
    ensures more { MoreIsLegal V K.eq }
    ensures front { FrontIsLegal V K.eq }
{}

/// The single-fill law: a key is claimed again only after its fail or its eviction, and filled again only after its eviction.
pub fn single_fill<K: Eq, V>()
    ensures claims { ClaimsOnce V K.eq }
    ensures fills { FillsOnce V K.eq }
{}

/// Where the value and the cost of a ready entry come from: a fill of its key.
pub fn filled<K: Eq, V>()
    ensures { ReadyWasFilled V K.eq }
{}

/// The budget law: the entries that no pin holds cost at most the budget.
pub fn budget<K: Eq, V>()
    ensures { StaysInBudget V K.eq }
{}

/// The limit law: a list that is longer than its limit has no entry to evict.
pub fn limit<K: Eq, V>()
    ensures { StaysInLimit V K.eq }
{}

/// The hard law: where a hard limit is set, and each fill found room within it, the entries cost at most the limit together, with
/// what each that is being made counts for. The fills of no history fit; one step more fits where it finds room, or is no fill.
pub fn hard<K: Eq, V>()
    ensures within { StaysInHardLimit V K.eq }
    ensures none { NoneFits V K.eq }
    ensures more { MoreFits V K.eq }
{}

/// The pin law: who makes a key has its claim pending, the pins of a key are those that all hold, so that each number's
/// are among them and none gives back more than it took, and what is held isn't evicted.
pub fn pins<K: Eq, V>()
    ensures making { FliesWherePending V K.eq }
    ensures counted { PinsAreHeld V K.eq }
    ensures held { HeldArePins V K.eq }
    ensures given { GivenWereTaken V K.eq }
    ensures kept { HeldIsKept V K.eq }
{}

/// A pin-all, by the places of its keys: where it may be made, what it adds, and one of a key more.
pub fn pin_all<K: Eq, V>()
    ensures each { EachIsPinnable V K.eq }
    ensures pins { PinsAfterAll V K.eq }
    ensures more { OneHitMore V K.eq }
{}

/// What the counts say: how often each kind of step was made. What was claimed was filled, failed or is being made, and
/// what was filled is ready or was evicted.
pub fn counted<K: Eq, V>()
    ensures { CountsAreOfSteps V K.eq }
{}

/// What a trim evicts: as few as will do.
pub fn trims<K, V>()
    ensures { TrimsLeast K V }
{}
