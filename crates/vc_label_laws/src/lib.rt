//! Labels for any network: definitions, and laws on them. A law is a function that does nothing, whose contract is the law.
#![tactic(auto)]

ghost use Rattle.vc_label_laws.specs.Dimension.{DimensionIsFree, DimensionIsLabelled};
ghost use Rattle.vc_label_laws.specs.Parts.{PartsAreFree};
ghost use Rattle.vc_label_laws.specs.Served.{ServedIsLabelled};
ghost use Rattle.vc_label_laws.specs.UpAndDown.{UpAndDownIsFree};

/// Labels by which packets go up a numbering of the switches and then down have no circle of dependencies.
#[tactic(auto, using(crate::proofs::UpAndDown::up_and_down_free))]
pub fn up_and_down_is_free()
    ensures { UpAndDownIsFree }
{}

/// Labels that take packets nearer to the node of their header at each hop deliver on every path.
#[tactic(auto, using(crate::proofs::Delivery::served_labelled))]
pub fn served_is_labelled()
    ensures { ServedIsLabelled }
{}

/// Labels by which packets correct the last axis first, then the one before it and so on, have no circle of dependencies.
#[tactic(auto, using(crate::proofs::Dimension::dimension_free))]
pub fn dimension_is_free()
    ensures { DimensionIsFree }
{}

/// If the switches also take such packets only to the node of their header, the labels deliver on every path.
#[tactic(auto, using(crate::proofs::Dimension::dimension_labelled))]
pub fn dimension_is_labelled()
    ensures { DimensionIsLabelled }
{}

/// If each part of the switches has labels of one of the two kinds, and no labels lead out of it, there is no circle of dependencies.
pub fn parts_are_free()
    ensures { PartsAreFree }
{}
