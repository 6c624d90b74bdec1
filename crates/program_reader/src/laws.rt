// The laws of programs that files say, over the definitions alone.
ghost use Rattle.equation_law.specs.Checked.{HasSourcesAlone, IsProgram};
ghost use Rattle.equation_law.specs.Program.{Program};
ghost use Rattle.program_reader.specs.Files.{SaysProgram};
ghost use Rattle.run_io.specs.Files.{Contents};

/// What four files say is a program: its parts break no rule, each over those before it. So the laws of programs hold of it.
pub fn said_programs()
    ensures { (held : Contents) (p : Program) → SaysProgram held p → IsProgram p }
{}

/// It makes no trees: none of its attributes is higher-order so far.
pub fn said_sources()
    ensures { (held : Contents) (p : Program) → SaysProgram held p → HasSourcesAlone p }
{}
