//! Laws over the definitions, the contract of a function that does nothing.

ghost use Rattle.std.specs.Prelude.{◌≡◌, ◌≤◌, ◌+◌, ℕ, List, ◌∷◌, Option, Some, slice_get};
ghost use Rattle.std.specs.Io.KnownBytes.{Appends};
ghost use Rattle.uc_term.specs.Tree.{Tree};
ghost use Rattle.uc_edge.specs.Files.{Files};
ghost use Rattle.uc_edge.specs.Faults.{Rose};
ghost use Rattle.uc_check.specs.Clauses.{axioms_of};
ghost use Rattle.uc_words.specs.declared.command.Command.{Command};
ghost use Rattle.uc_words.specs.declared.command.Verb.TheVariants.{Decide};
ghost use Rattle.uc_words.specs.Reads.{Reads};
ghost use Rattle.uc_machine.specs.declared.event.Verdict.TheVariants.{Saturated};
ghost use Rattle.uc_ordering.specs.Choice.{all_symbols};
ghost use Rattle.uc_ordering.specs.Fits.{Fits};
ghost use Rattle.uc_search.specs.Bounds.{rounds_in, IsBounded};
ghost use Rattle.uc_answer.specs.VerdictLines.{opening_for};
ghost use Rattle.uc_top.specs.Answers.{Answers, SearchesAlone};
ghost use Rattle.uc_top.specs.Runs.{IsRun, IsSettledStatus};
ghost use Rattle.uc_top.specs.ProveRuns.{IsHeldAnswer};
ghost use Rattle.uc_top.specs.DecideAnswers.{opening_of_axioms, facts_of};
ghost use Rattle.uc_top.specs.DecideRuns.{IsHeldDecision, KeepsDecision, Tells};
ghost use Rattle.uc_top.specs.GenRuns.{CountsClasses};
ghost use Rattle.uc_top.specs.SharedOrders.{SharesOrder};
ghost use Rattle.uc_top.specs.SystemRuns.{IsAnsweredByCertificate, TellsByCertificate};

/// Words and the files of a library have at most one status and one text for an answer, whatever the command is, but where a fetch
/// failed, or where several workers search and end with status 0, 1 or 2. So `Answers` says exactly where each refusal comes.
pub fn one_answer()
    ensures answer { (files : Files) (before now again later : ℕ) (words : List (List ℕ)) (s t : ℕ) (a b : List ℕ) → (s ≤ 2 → SearchesAlone words) → (Rose before now → ⊥) → (Rose again later → ⊥) → Answers (Some files) before now words s a → Answers (Some files) again later words t b → (s ≡ t) × (a ≡ b) }
    ensures unless_read_fault { (files : Files) (before now again later : ℕ) (words : List (List ℕ)) (s t : ℕ) (a b : List ℕ) → (s ≤ 2 → SearchesAlone words) → (s ≡ 5 → ⊥) → (t ≡ 5 → ⊥) → Answers (Some files) before now words s a → Answers (Some files) again later words t b → (s ≡ t) × (a ≡ b) }
{}

/// Two runs of one command line over the same files, whatever the command is, that end with another status than 5, 6 and 7, have
/// one status and tell one text; where several workers search, so they do if the status isn't 0, 1 or 2. `decide` by a certificate
/// searches nothing.
pub fn one_run()
    ensures { (files : Files) (words : List (List ℕ)) (before now again later : ℕ) (old new first last : Option (List ℕ)) (write_before write_now write_again write_later : ℕ) (r q : ℕ) → (r ≤ 2 → SearchesAlone words) → IsSettledStatus r → IsSettledStatus q → (x : IsRun (Some files) before now words old new write_before write_now r) (y : IsRun (Some files) again later words first last write_again write_later q) → (r ≡ q) × (x.text ≡ y.text) × Appends old new x.text × Appends first last y.text }
{}

/// The search by one worker that `prove` or `decide` tells of is one function of the words and the files: it has one verdict and one
/// state, with one history. Of `decide` the words for the root, the order, the budget and the limit on pairs alone count, and not the questions.
pub fn one_history()
    ensures prove { (files : Files) (words : List (List ℕ)) (command : Command) (name : List ℕ) (s t : ℕ) (a b : List ℕ) (x : IsHeldAnswer files command name s a) (y : IsHeldAnswer files command name t b) → Reads words command → command.workers ≡ 1 → (x.verdict ≡ y.verdict) × (x.state ≡ y.state) }
    ensures decide { (files : Files) (words : List (List ℕ)) (k l : Command) (name : List ℕ) (asked others : List (List ℕ)) (s t : ℕ) (a b : List ℕ) (x : IsHeldDecision files k name asked s a) (y : IsHeldDecision files l name others t b) → Reads words k → k.workers ≡ 1 → l.workers ≡ 1 → k.root ≡ l.root → k.order ≡ l.order → k.budget ≡ l.budget → k.pairs ≡ l.pairs → (x.verdict ≡ y.verdict) × (x.state ≡ y.state) }
{}

/// The order that the words of `prove` name is one of exactly the encoded problem's symbols: the problem's own, its fresh constant
/// among them, and those of the encoding, where there is one. Its weights are good, and it has a constant.
pub fn chosen_order_fits()
    ensures { (files : Files) (words : List (List ℕ)) (command : Command) (name : List ℕ) (s : ℕ) (a : List ℕ) (x : IsHeldAnswer files command name s a) → Reads words command → Fits x.table (all_symbols x.problem.signature x.encoded.fresh) x.spec }
{}

/// Two runs of `decide` for one problem by one order that both say of a question whether its equation follows print the same line for
/// it, whatever words named the order, whatever else is asked, and whatever the limits and the numbers of workers are. Of the problem its axioms count, and the
/// symbols that loading it makes of its files, whichever these are: two commands with one name, root and library have one problem.
pub fn one_line()
    ensures problem { (files others : Files) (words : List (List ℕ)) (k l : Command) (name another : List ℕ) (asked questions : List (List ℕ)) (s t : ℕ) (a b : List ℕ) (x : KeepsDecision files k name asked s a) (y : KeepsDecision others l another questions t b) (i j : ℕ) (sides : Tree × Tree) (line other : List ℕ) → Reads words k → x.table ≡ y.table → axioms_of x.is_decided.problem.clauses ≡ axioms_of y.is_decided.problem.clauses → x.is_decided.decided.spec ≡ y.is_decided.decided.spec → slice_get x.is_decided.decided.questions i ≡ Some sides → slice_get y.is_decided.decided.questions j ≡ Some sides → Tells x i line → Tells y j other → line ≡ other }
    ensures file { (files : Files) (words : List (List ℕ)) (k l : Command) (name : List ℕ) (asked others : List (List ℕ)) (s t : ℕ) (a b : List ℕ) (x : KeepsDecision files k name asked s a) (y : KeepsDecision files l name others t b) (i j : ℕ) (sides : Tree × Tree) (line other : List ℕ) → Reads words k → k.root ≡ l.root → x.is_decided.decided.spec ≡ y.is_decided.decided.spec → slice_get x.is_decided.decided.questions i ≡ Some sides → slice_get y.is_decided.decided.questions j ≡ Some sides → Tells x i line → Tells y j other → line ≡ other }
{}

/// Two runs of `decide` that answer the same questions by one system, with the same limit on the steps, have one status and tell one text,
/// whatever their numbers of workers are and whatever else their words say. By a certificate it is so of two runs over the same files, with
/// one root and the same names of the problem and of the certificate, that end with another status than 5, 6 and 7; by a search, of two
/// that end saturated with the same facts, by one order.
pub fn one_system()
    ensures certificate { (files : Files) (words others : List (List ℕ)) (k l : Command) (name file : List ℕ) (asked : List (List ℕ)) (before now again later : ℕ) (old new first last : Option (List ℕ)) (write_before write_now write_again write_later : ℕ) (r q : ℕ) → Reads words k → Reads others l → k.verb ≡ Decide → l.verb ≡ Decide → k.system ≡ Some file → l.system ≡ Some file → k.positionals ≡ name ∷ asked → l.positionals ≡ name ∷ asked → k.root ≡ l.root → k.steps ≡ l.steps → IsSettledStatus r → IsSettledStatus q → (x : IsRun (Some files) before now words old new write_before write_now r) (y : IsRun (Some files) again later others first last write_again write_later q) → (r ≡ q) × (x.text ≡ y.text) }
    ensures search { (files others : Files) (k l : Command) (name another : List ℕ) (asked words : List (List ℕ)) (s t : ℕ) (a b : List ℕ) (x : IsHeldDecision files k name asked s a) (y : IsHeldDecision others l another words t b) → x.verdict ≡ Saturated → y.verdict ≡ Saturated → x.table ≡ y.table → x.spec ≡ y.spec → facts_of x.state ≡ facts_of y.state → x.questions ≡ y.questions → k.steps ≡ l.steps → (s ≡ t) × (a ≡ b) }
{}

/// A run of `decide` by a search and one by a certificate for the same problem that both say of a question whether its equation follows
/// print the same line for it, where the certificate's order agrees with that of the search on terms over the problem's own symbols and
/// none of the encoding's is its least constant. So it is with the certificate that `prove` prints by the options of the search. The
/// encoding's symbols change nothing, whatever the limits and the numbers of workers are and whatever else is asked.
pub fn one_line_by_certificate()
    ensures terms { (files : Files) (words : List (List ℕ)) (k l : Command) (name file : List ℕ) (asked questions : List (List ℕ)) (s t : ℕ) (a b : List ℕ) (x : KeepsDecision files k name asked s a) (y : IsAnsweredByCertificate files l name file questions t b) (i j : ℕ) (sides : Tree × Tree) (line other : List ℕ) → Reads words k → k.root ≡ l.root → SharesOrder y.has.passed.loaded y.has.passed.table y.has.passed.read y.has.passed.problem y.has.passed.encoded.fresh k.order x.is_decided.decided.spec y.has.passed.certificate.text.spec → slice_get x.is_decided.decided.questions i ≡ Some sides → slice_get y.questions j ≡ Some sides → Tells x i line → TellsByCertificate y j other → line ≡ other }
    ensures word { (files : Files) (words : List (List ℕ)) (k l : Command) (name file : List ℕ) (asked questions : List (List ℕ)) (s t : ℕ) (a b : List ℕ) (x : KeepsDecision files k name asked s a) (y : IsAnsweredByCertificate files l name file questions t b) (i j : ℕ) (word line other : List ℕ) → Reads words k → k.root ≡ l.root → SharesOrder y.has.passed.loaded y.has.passed.table y.has.passed.read y.has.passed.problem y.has.passed.encoded.fresh k.order x.is_decided.decided.spec y.has.passed.certificate.text.spec → slice_get asked i ≡ Some word → slice_get questions j ≡ Some word → Tells x i line → TellsByCertificate y j other → line ≡ other }
{}

/// The search by one worker that `prove` or `decide` tells of is short. With the budget `B` and `g` goals, those of the encoded problem, it draws
/// at most `g * (2B + 1) + 2B` tasks and keeps at most `B` audits, and it makes at most `B + 1` rounds, each with at most one final
/// pass. `decide` searches without goals.
pub fn searches_are_short()
    ensures prove { (files : Files) (command : Command) (name : List ℕ) (s : ℕ) (a : List ℕ) (x : IsHeldAnswer files command name s a) → command.workers ≡ 1 → IsBounded (opening_for command x.encoded) x.state }
    ensures prove_rounds { (files : Files) (command : Command) (name : List ℕ) (s : ℕ) (a : List ℕ) (x : IsHeldAnswer files command name s a) → (one : command.workers ≡ 1) → rounds_in (x.searched.alone one).searches ≤ command.budget + 1 }
    ensures decide { (files : Files) (command : Command) (name : List ℕ) (asked : List (List ℕ)) (s : ℕ) (a : List ℕ) (x : IsHeldDecision files command name asked s a) → command.workers ≡ 1 → IsBounded (opening_of_axioms command x.problem) x.state }
    ensures decide_rounds { (files : Files) (command : Command) (name : List ℕ) (asked : List (List ℕ)) (s : ℕ) (a : List ℕ) (x : IsHeldDecision files command name asked s a) → (one : command.workers ≡ 1) → rounds_in (x.searched.alone one).searches ≤ command.budget + 1 }
{}

/// Of a generated problem one number of classes is told, whatever the budgets, the limits on pairs and the numbers of workers of the
/// searches are.
pub fn one_number()
    ensures { (n start : ℕ) (a b : List ℕ) → CountsClasses n start a → CountsClasses n start b → a ≡ b }
{}
