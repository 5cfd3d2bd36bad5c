//! Laws of static rules. The functions have empty bodies: what they ensure holds of all written models.

ghost use Rattle.std.specs.Prelude.{◌≡◌, ◌↔◌, Some, None};
ghost use Rattle.model_core.specs.Text.Numbering.{numbered};
ghost use Rattle.model_core.specs.Static.OwnRules.{KeepsStaticRules};
ghost use Rattle.model_core.specs.Static.WrittenByKind.{VariablesByKind};
ghost use Rattle.model_core.specs.EventGraph.{EventGraph};
ghost use Rattle.model_core.specs.Text.Written.{WrittenModel};
ghost use Rattle.model_core.specs.Static.FaultOrder.{StaticFault};
ghost use Rattle.model_core.specs.Static.ModelFaults.{IsFirstFault, first_fault, Accepted};
ghost use Rattle.static_laws.specs.FitsVersion.{FitsVersion};

/// A written model is accepted as a model, or it has exactly one first static fault: of those with the least
/// place the first of the table.
pub fn accepted_or_one_fault()
    ensures first { (m : WrittenModel) (f : StaticFault)
        → first_fault m ≡ Some f ↔ IsFirstFault m f.kind f.at }
    ensures accepted { (m : WrittenModel)
        → first_fault m ≡ None ↔ ((g : EventGraph) × Accepted m g) }
{}

/// A written model is accepted as a model exactly where that is the model with numbers in place of its names, it keeps
/// the static rules by itself, the version of the text can write it, and each variable is written as its kind has it.
pub fn accepted_models_keep_their_rules()
    ensures { (m : WrittenModel) (g : EventGraph)
        → Accepted m g
        ↔ (numbered m ≡ Some g) × KeepsStaticRules g × FitsVersion m.version g × VariablesByKind m }
{}
