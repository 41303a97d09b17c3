//! The law of the functions of sources that are compiled.
ghost use Rattle.std.specs.Prelude.{◌≢◌, ℕ, List, AllPairs, map};
ghost use Rattle.c_tree.specs.TypedTree.{FunctionTree};
ghost use Rattle.c25_isa.specs.Image.{Contents};
ghost use Rattle.frame_layouts.specs.declared.options.Options.{Options};
ghost use Rattle.frame_layouts.specs.lay_cert.Frames.{Frame};
ghost use Rattle.cc_compile.specs.Compiles.{IsBuilt};

/// No two functions of a source that is compiled have one name. It does nothing: its clause is what callers cite.
pub fn built_functions_differ()
    ensures { (o : Options) (bytes : List ℕ) (image : Contents) (frames : List Frame) (b : IsBuilt o bytes image frames)
        → AllPairs (λ x y. x ≢ y) (map (λ (f : FunctionTree). f.name) b.program.functions) }
{
    c_syntax::functions_have_names();
    c_syntax::trees_are_small();
    c_types::typed_is_well_formed();
}
