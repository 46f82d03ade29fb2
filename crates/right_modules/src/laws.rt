ghost use Rattle.right_modules.specs.Laws.{CountsModule, HasModuleLeads, HasOneModuleBasis, IsIdealPart};
ghost use Rattle.right_modules.specs.Laws.{IsOutsideWhereNormal};

/// The laws of a right module whose relations have a generator in front alone: its leading words and its reduced
/// elements are those of the ideal of all relations that lead with a module word; each degree has one reduced module
/// basis; and the coefficient is the number of module words in which no leading word of the ideal's basis stands.
pub fn module_laws()
    ensures part { IsIdealPart }
    ensures one_basis { HasOneModuleBasis }
    ensures leads { HasModuleLeads }
    ensures counts { CountsModule }
    ensures normal { IsOutsideWhereNormal }
{}
