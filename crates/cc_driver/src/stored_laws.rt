//! The laws of images and certificates that `build` stored.
ghost use Rattle.std.specs.Prelude.{◌≡◌, ℕ, List};
ghost use Rattle.cc_answers.specs.Answers.{Answered};
ghost use Rattle.cc_files.specs.frame_layouts.declared.options.Options.{Options};
ghost use Rattle.cc_driver.specs.Build.{plain_options, BuildsTo};
ghost use Rattle.cc_driver.specs.Check.{ChecksTo};
ghost use Rattle.cc_driver.specs.Exec.{ExecutesTo};
ghost use Rattle.cc_driver.specs.Run.{RunsTo};
ghost use Rattle.cc_driver.specs.Stored.{image_and_certificate, ChecksAsReported};

/// `run` of the image that `build` stored for a source, where nothing is chosen, answers what `exec` of the source does. It does nothing: its clause is what
/// callers cite.
pub fn stored_images_run_as_executions()
    ensures { (name source ports image certificate : List ℕ) (steps : ℕ) (reported run executed : Answered)
        → BuildsTo plain_options name source reported (image_and_certificate name image certificate)
        → RunsTo image ports steps run → ExecutesTo source ports steps executed → run ≡ executed }
{}

/// `check` of the image and the certificate that `build` stored answers 0, and says of each function, in order, that it takes as many address instructions as
/// the report said, and is optimal or the best that was found as the report said. It does nothing: its clause is what callers cite.
pub fn stored_layouts_check()
    ensures { (o : Options) (name source image certificate : List ℕ) (reported checked : Answered)
        (h : BuildsTo o name source reported (image_and_certificate name image certificate))
        → ChecksTo image certificate checked → ChecksAsReported h.frames reported checked }
{
    cc_files::built_functions_differ();
    cc_files::built_images_have_the_shape();
}
