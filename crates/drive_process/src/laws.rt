//! What holds of whatever is answered, stated over the definitions alone.
ghost use Rattle.base.specs.Run.{MakesLater};
ghost use Rattle.base.specs.Rising.{UsesNumbers, CountsRows};
ghost use Rattle.scenario.specs.Setup.{Setup, IsSound};
ghost use Rattle.member.specs.Places.{place_of};
ghost use Rattle.drive_process.specs.Answers.{AreSoundAnswers};
ghost use Rattle.drive_process.specs.Driven.{Answers, driven};
ghost use Rattle.drive_process.specs.Process.{Process};

/// Each event comes later than what caused it, a member uses each of its numbers once, and rows carry the key of their
/// event and are counted from 0.
pub fn answers_make_runs()
    ensures later { (s : Setup) (answers : Answers) → IsSound s → AreSoundAnswers s answers → MakesLater (driven s answers) }
    ensures numbers { (s : Setup) (answers : Answers) → IsSound s → AreSoundAnswers s answers
        → UsesNumbers (λ (p : Process). p.next_number) (driven s answers) }
    ensures rows { (s : Setup) (answers : Answers) → IsSound s → AreSoundAnswers s answers → CountsRows place_of (driven s answers) }
{}
