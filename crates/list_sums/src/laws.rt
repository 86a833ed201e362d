//! Laws of sums over lists of any type. Each law is the contract of a function that does nothing.

ghost use Rattle.list_sums.specs.Laws.{SumsJoin, SumsPush, SumsSet, SumsAgree, SumsKeepOrder, SumsOfZeros, SumsAdd, SumsSubtract, SumsScale, SumsAreBounded, SumsMap, SumsExchange};

/// The sum over two joined lists is the sum over the first plus the sum over the second.
pub fn sums_join<T>()
    ensures { SumsJoin T }
{}

/// Pushing a member adds its summand to the sum.
pub fn sums_push<T>()
    ensures { SumsPush T }
{}

/// Replacing a member changes the sum by as much as it changes that member's summand.
pub fn sums_set<T>()
    ensures { SumsSet T }
{}

/// Sums whose summands are equal, member by member, are equal.
pub fn sums_agree<T>()
    ensures { SumsAgree T }
{}

/// Sums whose summands are in order, member by member, are in order.
pub fn sums_keep_order<T>()
    ensures { SumsKeepOrder T }
{}

/// A sum of zeros is 0.
pub fn sums_of_zeros<T>()
    ensures { SumsOfZeros T }
{}

/// The sum of `f + g` is the sum of `f` plus the sum of `g`.
pub fn sums_add<T>()
    ensures { SumsAdd T }
{}

/// The sum of `f - g` is the sum of `f` minus the sum of `g`.
pub fn sums_subtract<T>()
    ensures { SumsSubtract T }
{}

/// The sum of `c` times `f` is `c` times the sum of `f`.
pub fn sums_scale<T>()
    ensures { SumsScale T }
{}

/// A sum of summands of at most `m`, in absolute value, is at most `m` times their number in absolute value.
pub fn sums_are_bounded<T>()
    ensures { SumsAreBounded T }
{}

/// The sum of `f` over a mapped list is the sum over the list of `f` after the map.
pub fn sums_map<T, U>()
    ensures { SumsMap T U }
{}

/// Two nested sums may be exchanged.
pub fn sums_exchange<T, U>()
    ensures { SumsExchange T U }
{}
