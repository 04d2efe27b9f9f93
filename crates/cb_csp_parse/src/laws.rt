//! What holds of all that is spelled. The functions do nothing: their contracts are the laws.

ghost use Rattle.cb_amn_parse.specs.Laws.{IsOne};
ghost use Rattle.cb_amn_parse.specs.Processes.{channels_out, controller_out};
ghost use Rattle.cb_csp_parse.specs.Laws.{TextIsOne};
ghost use Rattle.cb_grammar.specs.declared.parts.Part.TheVariants as part;

/// Tokens spell one text at most.
pub fn text_is_one()
    ensures { TextIsOne }
{}

/// Tokens spell one list of channels at most.
pub fn channels_are_one()
    ensures { IsOne channels_out part.Channels }
{}

/// Tokens spell one controller at most.
pub fn controller_is_one()
    ensures { IsOne controller_out part.Controller }
{}
