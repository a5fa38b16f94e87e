//! The law by which a session needs the files of its chosen jobs alone.
ghost use Rattle.br_cli_console.specs.SessionJobs.{SessionsAlike};

/// States that a session over the jobs of which the chosen ones alone have their files is the session
/// over all jobs with their files: choice, dialogue, bootstrap, plan and names.
pub fn sessions_are_alike()
    ensures { SessionsAlike }
{}
