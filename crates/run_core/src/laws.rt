//! What holds of the defined run of a course.
ghost use Rattle.std.specs.Prelude.{◌≡◌, ℕ, None, List, ◌++◌};
ghost use Rattle.std.specs.declared.option.Option.{Option};
ghost use Rattle.params_check.specs.Parameters.{IsParameters, Parameters};
ghost use Rattle.run_core.specs.declared.fault.RunFault.{RunFault};
ghost use Rattle.run_core.specs.Courses.{Course, RunState, Told, whole};
ghost use Rattle.run_core.specs.CourseLimits.{IsCourse};
ghost use Rattle.run_core.specs.PlainCounts.{HandlesPlainly};
ghost use Rattle.run_core.specs.Runs.{RunEnds};
ghost use Rattle.run_core.specs.Works.{IsTold, Standing, StandsAt};

/// The whole run of parameters is a course within all limits.
pub fn whole_runs()
    ensures course { (p : Parameters) → IsParameters p → IsCourse (whole p) }
{}

/// A run of the same course ends in one state, and by one limit or none.
pub fn one_run()
    ensures state { (c : Course) (s t : RunState) (a b : Option RunFault) → RunEnds c s a → RunEnds c t b → s ≡ t }
    ensures limit { (c : Course) (s t : RunState) (a b : Option RunFault) → RunEnds c s a → RunEnds c t b → a ≡ b }
{}

/// There is a run of each course within its limits.
pub fn run_exists()
    ensures exists { (c : Course) → IsCourse c → (s : RunState) × (limit : Option RunFault) × RunEnds c s limit }
{}

/// What is told of a run where it stands is the beginning of what is told of it in the end.
pub fn what_is_told_stays()
    ensures grows { (s : Standing) (told : List Told) (run : RunState) (limit : Option RunFault) → StandsAt s.step s.course s.phase s.set.places →
        IsTold s told → RunEnds s.course run limit → (more : List Told) × (run.told ≡ told ++ more) }
{}

/// A run that no limit ends handles one number of messages.
pub fn one_count()
    ensures one { (c : Course) (m n : ℕ) → HandlesPlainly c m → HandlesPlainly c n → m ≡ n }
    ensures exists { (c : Course) (s : RunState) → IsCourse c → RunEnds c s None → (n : ℕ) × HandlesPlainly c n }
{}
