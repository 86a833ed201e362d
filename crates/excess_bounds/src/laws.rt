//! What holds of the column of an asset, and of its excess as its price moves. Each law is the contract of a function that does nothing.
ghost use Rattle.excess_bounds.specs.Laws.{ColumnsListOrders, ExcessIsEnclosed, PartsEncloseExcess, GrainsMoveExcessLittle, MovesLeaveExcess};

/// The column of an asset has a cell for each order that names the asset, with its place and its weight, and no others;
/// the places ascend.
pub fn columns_list_orders()
    ensures { ColumnsListOrders }
{}

/// The true excess of an asset, of demands that aren't rounded, is between the low and the high excess.
pub fn excess_is_enclosed()
    ensures { ExcessIsEnclosed }
{}

/// In parts of a unit, the true excess is between the low and the high excess in parts.
pub fn parts_enclose_excess()
    ensures { PartsEncloseExcess }
{}

/// A grain more of an asset's price doesn't raise its true excess, and lowers it by at most the slope bound.
pub fn grains_move_excess_little()
    ensures { GrainsMoveExcessLittle }
{}

/// After a move of an unsettled asset, its true excess is still at least a part of a unit in the direction moved:
/// prices rise only while more is demanded than supplied, and fall only while more is supplied.
pub fn moves_leave_excess()
    ensures { MovesLeaveExcess }
{}
