ghost use Rattle.std.specs.Prelude.{◌≡◌, IfOk, suc};

use cyp_term::NoMemory;

/// One more. No memory holds what is counted past 2^64.
pub(crate) fn one_more(count: u64) -> Result<u64, NoMemory>
    ensures { IfOk result (λ n. n ≡ suc count) }
{
    match count.checked_add(1) {
        Some(more) => Ok(more),
        None => Err(NoMemory),
    }
}
