// The call that pays out for a timing program in C. It answers the number of its refusal, and leaves what the call itself leaves.
#![tactic(auto)]

ghost use Rattle.std.specs.Prelude.{◌≡◌, length};
ghost use Rattle.verdict.specs.Verdict.{number_of};
ghost use Rattle.payout_rules.specs.PayOut.{pay_out_rule, payments_after};

#[unsafe(no_mangle)]
pub extern "C" fn payout_timing_pay_out(file: &[u8], basis: &[u32], payments: &mut [i64]) -> u32
    ensures value { result ≡ number_of (pay_out_rule file.now basis.now (length payments.old)) }
    ensures payments_after { payments.new
        ≡ payments_after file.now basis.now (pay_out_rule file.now basis.now (length payments.old))
        payments.old }
{
    verdict::number(payout::pay_out(file, basis, payments))
}
