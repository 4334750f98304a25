//! What holds of the definitions alone: each law is the contract of a function that does nothing.

ghost use Rattle.std.specs.Prelude.{◌≡◌, ◌<◌, ℕ, List, not, All, if◌then◌else◌};
ghost use Rattle.percent_encoding.specs.AsciiSet.{contains};
ghost use Rattle.percent_encoding.specs.Percent.{percent_decode};
ghost use Rattle.repl.specs.Causes.{IsStoppedBy};
ghost use Rattle.repl.specs.Configuration.{PassConfiguration};
ghost use Rattle.repl.specs.Passes.{first_pass};
ghost use Rattle.repl.specs.Spelling.{is_unreserved, reserved_bytes, segment};
ghost use Rattle.repl.specs.Turns.{Turn, after_turns, has_listed, replies_in, start_by, told_of};
ghost use Rattle.repl.specs.declared.phase.Phase.TheVariants.{Stopped};
ghost use Rattle.repl.specs.declared.why.Why.{Why};

/// The ASCII bytes that are escaped in a segment are those that are not unreserved (RFC 3986, section 2.3).
pub fn all_but_unreserved_bytes_are_escaped()
    ensures { (b : ℕ) → b < 128 → contains reserved_bytes b ≡ not (is_unreserved b) }
{}

/// A segment reads back as the name that it spells.
pub fn segments_read_back()
    ensures { (name : List ℕ) → All (λ b. b < 256) name → percent_decode (segment name) ≡ name }
{}

/// A pass reports what the replies that it took in say, in order, also if it has stopped.
pub fn reports_are_told()
    ensures { (c : PassConfiguration) (ts : List Turn) → (after_turns (first_pass c) ts).refused ≡ told_of (first_pass c) ts }
{}

/// Once a list of changes was taken in, the start is that of the first two replies, which are the
/// checkpoints of the two sides; before, it is 0. A pass that is told to begin at 0 begins there. This is so
/// of a pass that has stopped, too.
pub fn start_is_that_of_the_checkpoints()
    ensures { (c : PassConfiguration) (ts : List Turn) → (after_turns (first_pass c) ts).start_seq
        ≡ (if has_listed (first_pass c) ts then start_by c (replies_in ts) else 0) }
{}

/// A pass that has stopped met the cause at one of its turns: a reply of a status that is not expected,
/// a reply of an expected status whose body has not the shape, or the 101st loss.
pub fn stops_have_causes()
    ensures { (c : PassConfiguration) (ts : List Turn) (why : Why) → (after_turns (first_pass c) ts).phase ≡ Stopped why
        → IsStoppedBy (first_pass c) why ts }
{}
