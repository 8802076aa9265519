//! What optimisation keeps of the rules of linking.

ghost use Rattle.std.specs.Prelude.{List, map};
ghost use Rattle.pw_flow.specs.declared.flow.FlowModule.{FlowModule};
ghost use Rattle.pw_law_opt.specs.Laws.{AreOptimisedModules};
ghost use Rattle.pw_law_shown.specs.Alike.{shown};
ghost use Rattle.pw_link_rules.specs.Linking.{Links};
ghost use Rattle.pw_link_rules.specs.declared.interface.Interface.{Interface};
ghost use Rattle.pw_law_opt_links.specs.Less.{AllShowLess};

use pw_law_opt::laws::optimisation_shows_no_more;

/// Modules that define the same, and declare and use no more, keep the rules of linking too.
pub fn modules_that_show_less_stay_linked()
    ensures { (is js : List Interface) → AllShowLess is js → Links is → Links js }
{}

/// Modules that keep the rules of linking keep them when they are optimised.
pub fn optimised_modules_stay_linked()
    ensures { (ms ns : List FlowModule) → AreOptimisedModules ms ns → Links (map shown ms) → Links (map shown ns) }
{
    modules_that_show_less_stay_linked();
    optimisation_shows_no_more();
}
