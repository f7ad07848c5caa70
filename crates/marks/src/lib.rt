// The marks of an area: thirty days in one number, by arithmetic.
#![tactic(auto)]

ghost use Rattle.std.specs.Prelude.{◌≡◌};
ghost use Rattle.marks.specs.Marks.{aged, counted};

// 2 to the power of the days that are recorded: marks are below it.
pub const MARKS_END: u32 = 1073741824;

// The marks g days later.
#[tactic(auto, using(crate::proofs::Bits::ageing))]
pub fn age(marks: u32, g: u32) -> u32
    ensures { result ≡ aged marks g }
{
    if limits::RECORDED_DAYS <= g {
        return 0;
    }
    let mut left = marks % MARKS_END;
    for _ in 0..g {
        left = left * 2 % MARKS_END;
    }
    left
}

// d for a day g days after the last one.
#[tactic(auto, using(crate::proofs::Bits::counting), unfolding(crate::specs::Marks::bits_below))]
pub fn count(marks: u32, g: u32) -> u32
    ensures { result ≡ counted marks g }
{
    if limits::RECORDED_DAYS < g {
        return 0;
    }
    let mut set = 0;
    let mut left = marks;
    for _ in 0..limits::RECORDED_DAYS + 1 - g {
        set += left % 2;
        left /= 2;
    }
    set
}
