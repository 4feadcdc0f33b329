// Laws of the text of a job, which say nothing of any call.
ghost use Rattle.std.specs.Prelude.{◌≡◌, ◌≤◌, ℕ, List, Ok, length};
ghost use Rattle.swan_model.specs.Lines.{lines};
ghost use Rattle.swan_model.specs.declared.record.TheConstants.{RECORD_MOST};
ghost use Rattle.job_reader.specs.Atoms.{literal};
ghost use Rattle.job_reader.specs.CanonicalText.{text_of};
ghost use Rattle.job_reader.specs.FirstFault.{job_of};
ghost use Rattle.job_reader.specs.Jobs.{IsJob};
ghost use Rattle.job_reader.specs.Pieces.{AreLines, AreTokens, StandsFor};
ghost use Rattle.job_reader.specs.Tokens.{tokens};
ghost use Rattle.job_reader.specs.declared.atom.TheConstants.{NAME_MOST};
ghost use Rattle.job_reader.specs.declared.job.TheConstants.{JOB_LINES_MOST};
ghost use Rattle.job_reader.specs.declared.line.Line.{Line};
ghost use Rattle.job_reader.specs.declared.position.TheConstants.{BLOCKS_MOST, INPUTS_MOST};
ghost use Rattle.job_reader.specs.declared.read.TheConstants.{LINE_MOST};

/// What a text reads as is a job (`IsJob`). It is read again from its canonical text, and written a second time it has
/// the same bytes.
pub fn text_reads_back()
    ensures back { (text : List ℕ) (job : List Line) → job_of text ≡ Ok job → job_of (text_of job) ≡ Ok job }
    ensures again { (text : List ℕ) (job second : List Line) → job_of text ≡ Ok job → job_of (text_of job) ≡ Ok second → text_of second ≡ text_of job }
    ensures job { (text : List ℕ) (job : List Line) → job_of text ≡ Ok job → IsJob job }
{}

/// The lines of a text are its pieces between line feeds, the last one only where it isn't empty, and there
/// is no other way to cut it.
pub fn lines_are_pieces()
    ensures are { (text : List ℕ) → AreLines text (lines text) }
    ensures only { (text : List ℕ) (found : List (List ℕ)) → AreLines text found → found ≡ lines text }
{}

/// The tokens of a line are the pieces that spaces separate outside of quotes, and there is no other way to
/// cut it.
pub fn tokens_are_pieces()
    ensures are { (line : List ℕ) → AreTokens line (tokens line) }
    ensures only { (line : List ℕ) (found : List (List ℕ)) → AreTokens line found → found ≡ tokens line }
{}

/// A literal, which is given by what follows its first quote, is pieces and a closing quote. It stands for
/// the bytes that its pieces stand for, if they fit a record.
pub fn literals_are_pieces()
    ensures pieces { (rest bytes : List ℕ) → literal rest ≡ Ok bytes → StandsFor rest bytes }
    ensures fits { (rest bytes : List ℕ) → literal rest ≡ Ok bytes → length bytes ≤ RECORD_MOST }
    ensures only { (rest bytes : List ℕ) → StandsFor rest bytes → length bytes ≤ RECORD_MOST → literal rest ≡ Ok bytes }
{}

/// The law that says of each limit of a job's text which number it is. The definitions name the limits, so
/// without it another number would change what they mean.
pub fn limits_of_jobs()
    ensures lines { JOB_LINES_MOST ≡ 20000 }
    ensures line { LINE_MOST ≡ 4096 }
    ensures inputs { INPUTS_MOST ≡ 16 }
    ensures blocks { BLOCKS_MOST ≡ 32 }
    ensures name { NAME_MOST ≡ 32 }
{}
