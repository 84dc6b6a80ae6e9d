//! The rules that an order may break.
ghost use Rattle.std.specs.Prelude.{◌≡◌, IfSome};
ghost use Rattle.venue_words.specs.Rules.{rule_number, rule_text};

use std::fmt;

/// A rule that an order, a cancel or a replace broke. Rules are numbered from 1 in this order, for RuleNumber(9702), this
/// venue's own tag.
#[derive(Clone, Copy, Debug, PartialEq, Eq)]
pub enum Rule {
    /// The symbol is not traded here.
    UnknownSymbol,
    /// The member used this ClOrdID(11) in this symbol for an order, a cancel or a replace that was accepted.
    UsedId,
    /// OrderQty(38) is not a whole number from 1 to 999,999,999.
    Quantity,
    /// Side(54) is neither 1 nor 2.
    Side,
    /// OrdType(40) is neither 2 nor P.
    OrderType,
    /// TimeInForce(59) is there and is neither 0 nor 3.
    TimeInForce,
    /// A limit order has no Price(44).
    NoPrice,
    /// Price(44) is not a whole number of the symbol's ticks from 0.01 to 19,999.99.
    Price,
    /// PegPriceType(1094) of a pegged order is not there, or is not 2, 4 or 5.
    PegPrice,
    /// PegMoveType(835) of a pegged order is there and is not 0.
    PegMove,
    /// PegOffsetType(836) of a pegged order is there and is neither 0 nor 2.
    PegOffsetType,
    /// PegOffsetValue(211) of a pegged order is not a whole number of units of 0.005, or of ticks, or is beyond 200 units of 0.005.
    PegOffset,
    /// PegRoundDirection(838) of a pegged order is there and is neither 1 nor 2.
    PegRounding,
    /// MinQty(110) is not a whole number from 0 to OrderQty(38).
    Minimum,
    /// MinQtyMethod(1822) is there and is neither 1 nor 2.
    MinimumMethod,
    /// No live order of the member in this symbol has OrigClOrdID(41) as its present ClOrdID.
    UnknownOrder,
    /// Side(54) of a replace is not that of the order.
    OtherSide,
    /// OrderQty(38) of a replace is not above what the order has traded.
    TradedQuantity,
}

/// All rules, in the order of their numbers.
pub const RULES: [Rule; 18] = [
    Rule::UnknownSymbol,
    Rule::UsedId,
    Rule::Quantity,
    Rule::Side,
    Rule::OrderType,
    Rule::TimeInForce,
    Rule::NoPrice,
    Rule::Price,
    Rule::PegPrice,
    Rule::PegMove,
    Rule::PegOffsetType,
    Rule::PegOffset,
    Rule::PegRounding,
    Rule::Minimum,
    Rule::MinimumMethod,
    Rule::UnknownOrder,
    Rule::OtherSide,
    Rule::TradedQuantity,
];

impl Rule {
    /// RuleNumber(9702).
    #[tactic(auto, unfolding(crate::specs::Rules::rule_number))]
    pub fn number(self) -> u8
        ensures { result ≡ rule_number self }
    {
        match self {
            Rule::UnknownSymbol => 1,
            Rule::UsedId => 2,
            Rule::Quantity => 3,
            Rule::Side => 4,
            Rule::OrderType => 5,
            Rule::TimeInForce => 6,
            Rule::NoPrice => 7,
            Rule::Price => 8,
            Rule::PegPrice => 9,
            Rule::PegMove => 10,
            Rule::PegOffsetType => 11,
            Rule::PegOffset => 12,
            Rule::PegRounding => 13,
            Rule::Minimum => 14,
            Rule::MinimumMethod => 15,
            Rule::UnknownOrder => 16,
            Rule::OtherSide => 17,
            Rule::TradedQuantity => 18,
        }
    }

    /// What the order did against it, in words.
    #[tactic(auto, unfolding(crate::specs::Rules::rule_text))]
    pub fn text(self) -> &'static str
        ensures { result.now ≡ rule_text self }
    {
        match self {
            Rule::UnknownSymbol => "the symbol is not configured",
            Rule::UsedId => "the member used up this ClOrdID (11) in this symbol",
            Rule::Quantity => "OrderQty (38) is no whole number from 1 to 999999999",
            Rule::Side => "Side (54) is not 1 or 2",
            Rule::OrderType => "OrdType (40) is not 2 or P",
            Rule::TimeInForce => "TimeInForce (59) is not 0 or 3",
            Rule::NoPrice => "a limit order needs Price (44)",
            Rule::Price => "Price (44) is no whole number of ticks from 0.01 to 19999.99",
            Rule::PegPrice => "a pegged order needs PegPriceType (1094) of 2, 4 or 5",
            Rule::PegMove => "PegMoveType (835) is not 0",
            Rule::PegOffsetType => "PegOffsetType (836) is not 0 or 2",
            Rule::PegOffset => {
                "PegOffsetValue (211) is no whole number of units or ticks, or is beyond 200 units"
            }
            Rule::PegRounding => "PegRoundDirection (838) is not 1 or 2",
            Rule::Minimum => "MinQty (110) is no whole number from 0 to OrderQty (38)",
            Rule::MinimumMethod => "MinQtyMethod (1822) is not 1 or 2",
            Rule::UnknownOrder => {
                "no live order of the member in this symbol has OrigClOrdID (41) as its ClOrdID"
            }
            Rule::OtherSide => "Side (54) is not the order's",
            Rule::TradedQuantity => "OrderQty (38) is not above what the order has traded",
        }
    }
}

impl fmt::Display for Rule {
    ghost use Rattle.std.specs.Prelude.{Some};
    ghost use Rattle.venue_words.specs.Rules.{rule_text};

    ghost output = { λ rule. Some (rule_text rule) };

    fn fmt<W: fmt::Write>(&self, f: &mut fmt::Formatter<W>) -> fmt::Result {
        f.write_str(self.text())
    }
}
