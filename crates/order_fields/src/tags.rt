//! The tags of the fields of orders, under their FIX names.

/// The identifier that the member gives the order or the request.
pub const CL_ORD_ID: u32 = 11;

/// An amount of shares.
pub const ORDER_QTY: u32 = 38;

/// `2` is a limit order, `P` a pegged one.
pub const ORD_TYPE: u32 = 40;

/// The present identifier of the order that a request is about.
pub const ORIG_CL_ORD_ID: u32 = 41;

/// The limit.
pub const PRICE: u32 = 44;

/// `1` is a buy, `2` a sell.
pub const SIDE: u32 = 54;

pub const SYMBOL: u32 = 55;

/// `0` is a day order, `3` immediate or cancel.
pub const TIME_IN_FORCE: u32 = 59;

/// When the member made the request.
pub const TRANSACT_TIME: u32 = 60;

/// The minimum quantity.
pub const MIN_QTY: u32 = 110;

/// An amount of price or a number of ticks, by PEG_OFFSET_TYPE.
pub const PEG_OFFSET_VALUE: u32 = 211;

/// 0 is floating.
pub const PEG_MOVE_TYPE: u32 = 835;

/// 0 is a price, 2 a number of ticks.
pub const PEG_OFFSET_TYPE: u32 = 836;

/// 1 is more aggressive, 2 more passive.
pub const PEG_ROUND_DIRECTION: u32 = 838;

/// 2 is the midpoint, 4 the market, 5 the primary price.
pub const PEG_PRICE_TYPE: u32 = 1094;

/// 1 is once by all trades of one event, 2 by each trade.
pub const MIN_QTY_METHOD: u32 = 1822;
