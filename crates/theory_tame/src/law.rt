//! The law of tame layers.

ghost use Rattle.theory_tame.specs.Laws.{OneLayerIsTame, TameLayersAreCubic};

/// If each leaf of a net has valid and tame layers, and each terminal crowd on the way is right, then uniformly random
/// meetings settle the net, and the expected number of meetings is at most cubic in the number of agents. A theorem; the
/// body is empty.
pub fn tame_layers_are_cubic()
    ensures { TameLayersAreCubic }
{}

/// One layer is tame. A theorem; the body is empty.
pub fn one_layer_is_tame()
    ensures { OneLayerIsTame }
{}
