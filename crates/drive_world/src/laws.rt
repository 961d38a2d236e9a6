//! What holds of every drive, stated over the definitions alone.
ghost use Rattle.std.specs.Prelude.{◌≡◌, ℕ, Bool, false, List, Option};
ghost use Rattle.base.specs.declared.key.Key.{Key};
ghost use Rattle.base.specs.World.{IsOver, SequentialRun};
ghost use Rattle.std.specs.List.Sorted.{IsPermutation, IsSorted};
ghost use Rattle.std.specs.declared.cmp.Ordering.{Ordering};
ghost use Rattle.scenario.specs.Setup.{Setup, IsSound, is_fourth};
ghost use Rattle.trace.specs.declared.row.Row.{Row};
ghost use Rattle.member_laws.specs.Runs.{IsRunOf};
ghost use Rattle.windows.specs.Cluster.{link_delay, IsLeastDelay, IsRowOrder};
ghost use Rattle.windows.specs.Delays.{KeepsDelays};
ghost use Rattle.drive_process.specs.Answers.{AreSoundAnswers};
ghost use Rattle.drive_process.specs.Driven.{Answers, driven, opening};
ghost use Rattle.drive_world.specs.Courses.{Course, Move, IsCourse, Moves};
ghost use Rattle.drive_world.specs.Drives.{Agree, IsDriven, SaysAll, IsEncoding, IsIdle};
ghost use Rattle.drive_events.specs.declared.content.Content.{Content};
ghost use Rattle.member.specs.declared.event_kind.EventKind.{EventKind};

/// Whatever is answered, an event for another member comes no earlier than the link between both lets it.
pub fn driven_members_keep_delays()
    ensures { (s : Setup) (answers : Answers) → IsSound s → AreSoundAnswers s answers → KeepsDelays (link_delay s) (driven s answers) }
{}

/// A drive is a schedule of safe steps of the machine whose step is the recorded answer: the steps of a course, in the order
/// in which they were taken, each of an event that was safe then. What waits for an answer stays safe.
pub fn a_drive_is_a_schedule()
    ensures { (s : Setup) (least_delay : Option ℕ) (answers : Answers) (c : Course) → IsSound s → IsLeastDelay s least_delay
        → AreSoundAnswers s answers → IsCourse s least_delay c → Agree answers c.asked c.taken → IsDriven s least_delay answers c }
{}

/// Where nothing is left up to the end, the rows of a drive, sorted, are those of the one run of the machine whose step is
/// the recorded answer, whatever it would answer to events that weren't asked.
pub fn a_drive_writes_the_run()
    ensures { (s : Setup) (least_delay : Option ℕ) (answers : Answers) (c : Course) (sorted : List Row) (cmp : Row → Row → Ordering)
        → IsSound s → IsLeastDelay s least_delay → AreSoundAnswers s answers → IsCourse s least_delay c → Agree answers c.asked c.taken
        → IsRowOrder cmp → IsOver s.end c.last.world → IsPermutation c.rows sorted → IsSorted cmp sorted
        → (keys : List Key) × SequentialRun (driven s answers) s.end (opening s) keys sorted }
{}

/// What is sent, which answer is taken and what comes of it doesn't depend on when answers come: from each state of a drive
/// there is one way on, but for the answer.
pub fn the_course_is_one()
    ensures { (s : Setup) (least_delay : Option ℕ) (c : Course) (m n : Move) → IsCourse s least_delay c
        → Moves s least_delay c.last m → Moves s least_delay c.last n → m.taken ≡ n.taken → m ≡ n }
{}

/// Our own members over the protocol write the rows of the run, in versions 1 to 3 of the format: where each answer says what
/// the member's step does. In version 4 they open connections, whose ends they draw themselves and for which the protocol has
/// no action.
pub fn own_members_write_the_run()
    ensures { (s : Setup) (encode : EventKind → Content) (idle : Key → Content → Bool) (answers : Answers) (rows : List Row)
        → IsSound s → is_fourth s.version ≡ false → AreSoundAnswers s answers → IsEncoding encode → SaysAll s encode (IsIdle idle) answers → IsRunOf s rows
        → (keys : List Key) × SequentialRun (driven s answers) s.end (opening s) keys rows }
{}
