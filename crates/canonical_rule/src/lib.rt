//! The canonical rule: at which prices and rates this program ends a batch.
//!
//! An auditor accepts any admissible outcome of a batch, which `flow_orders` defines; the program ends each batch by one
//! rule, which is defined here. If each order names one asset, each asset that is unsettled is moved once; else the assets
//! are visited in turn until all are settled or the budget is used (`Turns`), from the start prices, and perhaps from joint
//! prices (`Attempts`). Rates are demands rounded down, or up if that makes the sum of absolute imbalances smaller
//! (`Choice`). `Canonical` defines which outcome a batch has by that rule. `Units` defines it a second time, by whole units and
//! without parts, as a check: with one part to a unit and no joint prices both are proved to be the same.
//!
//! [`laws`] has what holds of it: each batch has exactly one canonical outcome, and it is admissible; joint prices skip no
//! batch that clears without them. There is no code here.
#![tactic(auto)]

pub mod laws;
