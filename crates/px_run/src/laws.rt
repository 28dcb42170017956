// What the headline means: a law that holds of it, as clauses of a function that does nothing.
ghost use Rattle.std.specs.Prelude.{ℕ, List};
ghost use Rattle.px_exec.specs.Executive.{TellsBytes};
ghost use Rattle.px_output.specs.View.{View};
ghost use Rattle.px_script.specs.Fit.{IsFitScript};
ghost use Rattle.px_script.specs.declared.script.Script.{Script as AnyScript};
ghost use Rattle.px_run.specs.Headline.{Headline};
ghost use Rattle.px_run.specs.OverStops.{ReadsOnly, AreSoundNow, AreSoundSince, AfterCalls};

use px_ports::Disk;

/// No line is posted twice, whatever stops there were: where each image that a crash may leave of the disk is nothing, or
/// stands for a history that is sound for the script, each image at every moment of a call is so too. So it is after any
/// number of calls, each on what the one before has left at its end or where it was stopped.
pub fn once_over_stops<D: Disk>()
    ensures one_call { (words : List (List ℕ)) (before now : View) (old new : D) (status : ℕ) (script : AnyScript)
        → IsFitScript script → ReadsOnly words before now script.threads → Headline D.Disk words before now old new status
        → TellsBytes D.Disk old → AreSoundNow D.Disk script.threads old → AreSoundSince D.Disk script.threads old new }
    ensures calls { (script : AnyScript) → IsFitScript script → (disk : D) → AfterCalls D.Disk script.threads disk
        → AreSoundNow D.Disk script.threads disk }
{}
