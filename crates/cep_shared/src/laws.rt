//! Laws of shared terms, for the crates that rest on them. A function here computes nothing, and its
//! contract is the law.
ghost use Rattle.std.specs.Cmp.{IsTotalOrder};
ghost use Rattle.std.specs.FinMap as finite;
ghost use Rattle.cep_shared.specs.Sizes.{size_cmp};

use cep_term::laws::order_is_total;

/// The order of argument lists by sizes is total, and only equal lists tie.
pub fn order_by_size_is_total()
    ensures lists { IsTotalOrder size_cmp }
    ensures equal_lists { finite.IsAntisymmetric size_cmp }
{
    order_is_total();
}
