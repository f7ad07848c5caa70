// The one call for a host written in C, by the name that C links: crate rse8080 decides what it answers and leaves.
#![tactic(auto)]

ghost use Rattle.std.specs.Prelude.{◌≡◌};
ghost use Rattle.verdict.specs.Verdict.{coded};
ghost use Rattle.rse8080.specs.Call.{verdict_of, bytes_after};

// include/rse8080.h says what it promises.
#[unsafe(no_mangle)]
pub extern "C" fn rse8080_settle(file: &[u8], statement: &mut [u8]) -> u64
    ensures value { result ≡ coded (verdict_of file.now statement.old) }
    ensures statement_after { statement.new
        ≡ bytes_after (verdict_of file.now statement.old) file.now statement.old }
{
    rse8080::rse8080_settle(file, statement)
}
