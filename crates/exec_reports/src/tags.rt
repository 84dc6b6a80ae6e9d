//! The tags of a report's body.

/// AvgPx.
pub const AVG_PX: u32 = 6;

/// ClOrdID.
pub const CL_ORD_ID: u32 = 11;

/// CumQty.
pub const CUM_QTY: u32 = 14;

/// ExecID.
pub const EXEC_ID: u32 = 17;

/// LastPx.
pub const LAST_PX: u32 = 31;

/// LastQty.
pub const LAST_QTY: u32 = 32;

/// OrderID.
pub const ORDER_ID: u32 = 37;

/// OrderQty.
pub const ORDER_QTY: u32 = 38;

/// OrdStatus.
pub const ORD_STATUS: u32 = 39;

/// OrdType.
pub const ORD_TYPE: u32 = 40;

/// OrigClOrdID.
pub const ORIG_CL_ORD_ID: u32 = 41;

/// Price.
pub const PRICE: u32 = 44;

/// Side.
pub const SIDE: u32 = 54;

/// Symbol.
pub const SYMBOL: u32 = 55;

/// TransactTime.
pub const TRANSACT_TIME: u32 = 60;

/// CxlRejReason.
pub const CXL_REJ_REASON: u32 = 102;

/// OrdRejReason.
pub const ORD_REJ_REASON: u32 = 103;

/// ExecType.
pub const EXEC_TYPE: u32 = 150;

/// LeavesQty.
pub const LEAVES_QTY: u32 = 151;

/// CxlRejResponseTo.
pub const CXL_REJ_RESPONSE_TO: u32 = 434;

/// PeggedPrice.
pub const PEGGED_PRICE: u32 = 839;

/// The event of a live order's time, which is its rank among orders of one price. A tag of this project's own.
pub const PRIORITY_EVENT: u32 = 9701;

/// The number of the rule that was broken. A tag of this project's own.
pub const RULE_NUMBER: u32 = 9702;
