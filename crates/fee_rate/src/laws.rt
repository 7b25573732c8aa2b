ghost use Rattle.fee_rate.specs.Laws.{IsFullOrder, IsRateOrder, LieBetween};

/// A law: rates are totally ordered by cross-multiplication, over sizes of at least 1.
pub fn rate_order_is_an_order()
    ensures { IsRateOrder }
{}

/// A law: rising rate, and falling size among equal rates, is a strict order.
pub fn full_order_is_an_order()
    ensures { IsFullOrder }
{}

/// A law: the rate of two sums joined lies between their rates.
pub fn sums_lie_between()
    ensures { LieBetween }
{}
