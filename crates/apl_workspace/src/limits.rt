ghost use Rattle.std.specs.Prelude.{◌≡◌};
ghost use Rattle.apl_workspace.specs.Limits.{most_depth, most_function_lines, most_printed, most_weight};

/// The most that a workspace weighs.
pub const WEIGHT_LIMIT: usize = 4_194_304;

/// The most frames of functions under way.
pub const DEPTH_LIMIT: usize = 100;

/// The most lines of a function.
pub const FUNCTION_LINE_LIMIT: usize = 200;

/// The most glyphs of the counted lines that are printed.
pub const PRINTED_LIMIT: u64 = 4_194_304;

/// The limits are those of the definitions. The call does nothing.
pub fn limits_are_as_defined()
    ensures weight { WEIGHT_LIMIT ≡ most_weight }
    ensures depth { DEPTH_LIMIT ≡ most_depth }
    ensures function_lines { FUNCTION_LINE_LIMIT ≡ most_function_lines }
    ensures printed { PRINTED_LIMIT ≡ most_printed }
{}
