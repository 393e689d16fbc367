use cep_base::{List, Pos};
use cep_rule::Parts;

/// Some places, in written order.
pub type Places = List<Pos>;

/// For each rule, in written order, some places.
pub type PlaceLists = List<Places>;

/// What a text declares, where it is not known yet whether it is a program: whether each variable
/// of a right side is bound on the left, and what backward premises leave unknown. A variable that
/// is only on the right is a further variable of its rule.
#[derive(Drop)]
pub struct Draft {
    pub parts: Parts,
    /// The place of each backward premise.
    pub back_places: PlaceLists,
    /// The place of each occurrence on the right side of a variable that is not on the left, and of
    /// each `_` there.
    pub right_places: PlaceLists,
}
