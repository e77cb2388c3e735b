// The law of scripts: what reading one line after another says of them.

ghost use Rattle.std.specs.Prelude.{◌≡◌, ◌≢◌, ◌↔◌, ℕ, List, Ok, Err, false};
ghost use Rattle.tw_base.specs.format.Formats.{Spells};
ghost use Rattle.tw_base.specs.kinds.Lists.{Each};
ghost use Rattle.tw_msg.specs.Messages.{message_layout};
ghost use Rattle.tw_msg.specs.declared.message.Message.{Message};
ghost use Rattle.tw_script.specs.AskedWords.{AskAlike, AsksWell};
ghost use Rattle.tw_script.specs.ScriptLines.{IsBadLine, IsScript};
ghost use Rattle.tw_script.specs.Scripts.{script_of};
ghost use Rattle.tw_script.specs.Injected.{is_own_or_none};
ghost use Rattle.tw_script.specs.declared.script.NumberedLine.{NumberedLine};
ghost use Rattle.tw_script.specs.declared.script.ScriptFault.TheVariants.{BadLine};

/// What the definition of a script by reading it, line after line, says of the texts of its lines.
pub fn script_laws()
    // A script that is read holds exactly the texts that aren't skipped, each as its line with its number, in their order; and
    // each may follow those before it.
    ensures script { (bytes : List ℕ) (script : List NumberedLine) → script_of bytes ≡ Ok script → IsScript bytes script }
    // A bad line that is told is the first: the texts before it are read as lines, it is no line that may follow them, and
    // whatever texts come behind it, reading them tells the same one.
    ensures bad { (bytes : List ℕ) (line : ℕ) → script_of bytes ≡ Err (BadLine line) → IsBadLine bytes line }
    // The words of a `prove` line behind its service ask for what they ask for behind `prove DIR` on the command line.
    ensures asked { (words : List (List ℕ)) → AskAlike words }
    // Each line of a script asks a service for what it may be asked for: the peer's step that a `prove` line names is one.
    ensures asks { (bytes : List ℕ) (script : List NumberedLine) → script_of bytes ≡ Ok script → Each (λ (l : NumberedLine). AsksWell l.line) script }
    // Bytes may not be injected in a hostile name exactly where they spell a message of another name.
    ensures injected { (name bytes : List ℕ) → (is_own_or_none name bytes ≡ false) ↔ ((m : Message) × Spells message_layout bytes m × (m.thread.from ≢ name)) }
{}
