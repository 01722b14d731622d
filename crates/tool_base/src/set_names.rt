ghost use Rattle.std.specs.Prelude.{IfSome, IfNone};
ghost use Rattle.spiral_model.specs.Sets.{IsSet};
ghost use Rattle.tool_base.specs.Names.{Names, NamesNone};

use spiral_sets::{ParamSet, set_named};

/// The set of that name; `None` exactly where no set has it.
pub fn find_set(name: &str) -> Option<ParamSet>
    ensures known { IfSome result IsSet }
    ensures found { IfSome result (Names name.now) }
    ensures none { IfNone result (NamesNone name.now) }
{
    set_named(name)
}
