//! What the orders of a book reserve together. Each law is the contract of a function that does nothing.
ghost use Rattle.order_book.specs.Laws.{NeedsAreSmall, AddedOrdersNeedMore, CancelledOrdersNeedNothing, FilledOrdersNeedLess};

/// What live orders reserve of an account is never negative, and at most 2^114 grains and 2^66 units of an asset.
pub fn needs_are_small()
    ensures { NeedsAreSmall }
{}

/// Adding an order raises what its account needs by what the order needs.
pub fn added_orders_need_more()
    ensures { AddedOrdersNeedMore }
{}

/// Cancelling an order lowers what its account needs by what the order needed.
pub fn cancelled_orders_need_nothing()
    ensures { CancelledOrdersNeedNothing }
{}

/// A batch lowers what orders reserve by what they reserved for what they trade; an order at its cap reserves nothing.
pub fn filled_orders_need_less()
    ensures { FilledOrdersNeedLess }
{}
