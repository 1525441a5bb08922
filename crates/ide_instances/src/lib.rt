//! The analyses that the program offers.
//!
//! [`Uninit`] finds variables that may be read before they are written. [`CopyConst`] is
//! copy-constant propagation: a variable is constant where every path gives it the same number by
//! assignments of numbers and copies alone. [`ShiftConst`] follows sums and differences with numbers
//! too. The values of both are [`ConstValue`], their edge functions [`ConstFn`].
//!
//! Their flows differ in what an assigned fact receives, and in nothing else. [`Reach`] is the least
//! analysis there is: which nodes are reached. The tests solve by it too.
#![tactic(auto)]

mod const_fn;
mod const_value;
mod copy_const;
mod reach;
mod shift_const;
mod uninit;
mod uninit_fn;
mod uninit_value;

pub use const_fn::ConstFn;
pub use const_value::ConstValue;
pub use copy_const::CopyConst;
pub use reach::Reach;
pub use shift_const::ShiftConst;
pub use uninit::Uninit;
pub use uninit_fn::UninitFn;
pub use uninit_value::UninitValue;
