ghost use Rattle.std.specs.Prelude.{◌≡◌, ℕ, List, Option, Some};
ghost use Rattle.nml_suite.specs.Complete.{Answering, AllAnswer, AreReadable, ComesOut};
ghost use Rattle.nml_suite.specs.Composed.{AssemblesFile, Makes, RunsFile, RunsText, ShowsFile, ShowsText};
ghost use Rattle.nml_command.specs.Form.{Form};
ghost use Rattle.nml_suite.specs.Work.{Work, Written};

/// A law: however the reads are answered, any words come to one thing alone. For a command that makes an image which isn't unique this will not
/// hold; it holds of all that are built.
///
/// What words come to is this project's own rule.
pub fn one_work()
    ensures { (answers : Answering) (form : Option Form) (w v : Work) → ComesOut answers form w → ComesOut answers form v → w ≡ v }
{}

/// A law: however the reads are answered, by bytes where they give any, it can't be that any words come to nothing. So what words come to has no
/// gap in which a call could answer as it likes.
pub fn some_work()
    ensures { (answers : Answering) (form : Option Form) → AllAnswer answers → AreReadable answers → ((w : Work) → ComesOut answers form w → ⊥) → ⊥ }
{}

/// A law: `asm` and `run` compose. On the description's bytes, the file that `asm` makes of a text, and any input, `run` comes to what the run of
/// the text's words and initial values on that input comes to, and to nothing else; it can't be that it comes to nothing.
///
/// What the commands come to is this project's own rule.
pub fn asm_then_run()
    ensures some { (d i x bytes text entry : List ℕ) (steps : ℕ) (file : Written) → Makes bytes text file → ((w : Work) → RunsFile d i x bytes entry steps file w → ⊥) → ⊥ }
    ensures only { (d i x bytes text entry : List ℕ) (steps : ℕ) (file : Written) (w : Work) → Makes bytes text file → RunsFile d i x bytes entry steps file w → RunsText x bytes text entry steps w }
{}

/// A law: `asm`, `dis` and `asm` compose. On the file that `asm` makes of a text `dis` comes to the canonical text of the text's words and initial
/// values, and to nothing else, and it can't be that it comes to nothing; of what `dis` tells `asm` makes the same file, byte for byte.
///
/// What the commands come to is this project's own rule.
pub fn asm_then_dis()
    ensures some { (d i bytes text : List ℕ) (file : Written) → Makes bytes text file → ((w : Work) → ShowsFile d i bytes file w → ⊥) → ⊥ }
    ensures only { (d i bytes text : List ℕ) (file : Written) (w : Work) → Makes bytes text file → ShowsFile d i bytes file w → ShowsText bytes text w }
    ensures again { (d i s j bytes text : List ℕ) (file : Written) (w : Work) → Makes bytes text file → ShowsFile d i bytes file w
        → (v : Work) × AssemblesFile d s j bytes w.reply.text v × (v.file ≡ Some (record { name = j; bytes = file.bytes })) }
    ensures back { (d i s j bytes text : List ℕ) (file : Written) (w v : Work) → Makes bytes text file → ShowsFile d i bytes file w
        → AssemblesFile d s j bytes w.reply.text v → v.file ≡ Some (record { name = j; bytes = file.bytes }) }
{}
