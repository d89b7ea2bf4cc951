//! Runs over files in memory, where calls fail.

use crate::runs::{ran_told, run};
use crate::telling::{numbers, parted};
use ass_io::{FailingShelf, MemoryShelf, Rt};
use std::fs;
use std::test::Fail;
use test_hook::NoHook;

fn add_file(rt: &HostRuntime, shelf: &mut MemoryShelf, name: &str) -> Result<(), Fail> {
    let bytes = fs::read(rt, name)?;
    shelf.add(rt.alloc(), name, bytes.as_slice())?;
    Ok(())
}

/// The files that runs name, in memory, where the fetch of this number fails; 0 is none.
fn shelf_of(rt: &HostRuntime, fail: u64) -> Result<FailingShelf, Fail> {
    let alloc = rt.alloc();
    let fails = vec![in alloc; fail]?;
    let mut shelf = MemoryShelf::new(alloc);
    add_file(rt, &mut shelf, "row.ass")?;
    add_file(rt, &mut shelf, "dot.bdf")?;
    Ok(FailingShelf::new(shelf, fails))
}

/// A run where calls fail: the numbers of the fetch, the put of an image and the put of a report, another number than 0 where no
/// file can be made, a bar, and the words.
pub fn told(lent: &impl Rt, rt: &HostRuntime, question: &str) -> Result<String, Fail> {
    let (fails, line) = parted(question, " |");
    let [fetch, image, told, unmade, _, _, _, _] = numbers(fails);
    let puts = [
        image.unsigned_abs(),
        told.unsigned_abs(),
        unmade.unsigned_abs(),
    ];
    let mut shelf = shelf_of(rt, fetch.unsigned_abs())?;
    let ran = run(lent, rt.alloc(), line, &mut shelf, puts, &NoHook)?;
    Ok(ran_told(rt.alloc(), &ran)?)
}
