ghost use Rattle.std.specs.Prelude.{◌≡◌, ◌<◌, ◌≤◌, ◌++◌, ℕ, List, length};
ghost use Rattle.std.specs.List.{flat_map};
ghost use Rattle.card_core.specs.declared.script.Script.{Script};
ghost use Rattle.script_text.specs.Commands.{IsCommandScript};
ghost use Rattle.script_text.specs.Ports.{statements_of};
ghost use Rattle.script_text.specs.Script.{HasFirstFault, IsScript, IsScriptOrFaulty};
ghost use Rattle.script_text.specs.Script.{script_of, statement_in};
ghost use Rattle.script_text.specs.declared.fault.ScriptKind.{ScriptKind};
ghost use Rattle.script_text.specs.Item.{Item};
ghost use Rattle.script_text.specs.declared.line_set.LineSet.{LineSet};
ghost use Rattle.script_text.specs.declared.line_set.LineSet.TheVariants.{PortOne};

/// Each text is one script or has one first fault, and never both.
pub fn texts_are_scripts_or_faulty()
    ensures each { (set : LineSet) (text : List ℕ) → IsScriptOrFaulty set text }
    ensures not_both { (set : LineSet) (text : List ℕ) (script : Script) (line : ℕ)
        (kind : ScriptKind) → IsScript set text script → ¬ HasFirstFault set text line kind }
    ensures one_script { (set : LineSet) (text : List ℕ) (script other : Script)
        → IsScript set text script → IsScript set text other → script ≡ other }
    ensures one_fault { (set : LineSet) (text : List ℕ) (line other : ℕ)
        (kind another : ScriptKind) → HasFirstFault set text line kind
        → HasFirstFault set text other another → (line ≡ other) × (kind ≡ another) }
{}

/// However a script is cut into sections and phases, its statements are those of its lines, in
/// their order.
pub fn cutting_keeps_the_statements()
    ensures { (items : List Item) → statements_of (script_of items)
        ≡ flat_map statement_in items }
{}

/// A text of more bytes than a script may have is no script, and however it goes on, its fault is
/// the same.
pub fn long_texts_are_refused()
    ensures no_script { (set : LineSet) (text : List ℕ) (script : Script)
        → IsScript set text script → length text ≤ 8388608 }
    ensures same_fault { (set : LineSet) (text more : List ℕ) (line : ℕ) (kind : ScriptKind)
        → 8388608 < length text → HasFirstFault set text line kind
        → HasFirstFault set (text ++ more) line kind }
{}

/// A script that has commands at port 1 alone is one section of one phase, of at most 20,000
/// commands.
pub fn commands_alone_are_not_cut()
    ensures { (text : List ℕ) (script : Script) → IsScript PortOne text script
        → IsCommandScript script }
{}
