// The names of a source: of its spaces, of what they declare, and of places of programs.
ghost use Rattle.std.specs.Prelude.{◌≡◌};
ghost use Rattle.toga_source.specs.Names.{name_at, program_name};

use std::marker::Model;

/// A name. Contracts see its bytes.
#[derive(Drop)]
pub struct Name {
    bytes: Vec<u8>,
}

impl Model for Name {
    ghost use Rattle.std.specs.Prelude.{List, ℕ};

    ghost Value = { List ℕ };

    ghost view = { λ n. n.bytes.items };
}

impl Name {
    /// The name of these bytes.
    pub fn new(bytes: Vec<u8>) -> Name
        ensures { result ≡ bytes.items }
    {
        Name { bytes }
    }

    /// The bytes of the name.
    pub fn bytes(&self) -> &[u8]
        ensures { result.now ≡ self.now }
    {
        self.bytes.as_slice()
    }

    /// The bytes of the name of this number, or none where there is no such name.
    pub fn at(names: &[Name], number: usize) -> &[u8]
        ensures { result.now ≡ name_at names.now number }
    {
        match names.get(number) {
            Some(name) => name.bytes(),
            None => &[],
        }
    }
}

/// A name of a place of a program.
#[derive(Drop)]
pub struct Label {
    /// The place, from 0.
    pub place: u16,
    /// Its name.
    pub name: Name,
}

/// The names of a program: its own, and its labels.
#[derive(Drop)]
pub struct ProgramNames {
    name: Name,
    labels: Vec<Label>,
}

impl Model for ProgramNames {
    ghost use Rattle.toga_source.specs.Names.{ProgramView};

    ghost Value = { ProgramView };

    ghost view = { λ p. record { name = p.name; labels = p.labels.items } };
}

impl ProgramNames {
    /// A program of this name and these labels.
    pub fn new(name: Name, labels: Vec<Label>) -> ProgramNames
        ensures { result ≡ record { name = name; labels = labels.items } }
    {
        ProgramNames { name, labels }
    }

    /// The bytes of the name of the program of this number, or none where there is no such program.
    pub fn name_at(programs: &[ProgramNames], number: usize) -> &[u8]
        ensures { result.now ≡ program_name programs.now number }
    {
        match programs.get(number) {
            Some(program) => program.name(),
            None => &[],
        }
    }

    /// The bytes of the program's name.
    pub fn name(&self) -> &[u8]
        ensures { result.now ≡ self.now.name }
    {
        self.name.bytes()
    }

    /// The labels, by place.
    pub fn labels(&self) -> &[Label]
        ensures { result.now ≡ self.now.labels }
    {
        self.labels.as_slice()
    }
}

/// The names of a space: its own, and those of what it declares, each kind in the order of its numbers.
#[derive(Drop)]
pub struct SpaceNames {
    name: Name,
    mutexes: Vec<Name>,
    semaphores: Vec<Name>,
    cells: Vec<Name>,
    programs: Vec<ProgramNames>,
}

impl Model for SpaceNames {
    ghost use Rattle.toga_source.specs.Names.{NamesView};

    ghost Value = { NamesView };

    ghost view = { λ s. record {
      name = s.name;
      mutexes = s.mutexes.items;
      semaphores = s.semaphores.items;
      cells = s.cells.items;
      programs = s.programs.items;
    } };
}

impl SpaceNames {
    /// A space of these names.
    pub fn new(
        name: Name,
        mutexes: Vec<Name>,
        semaphores: Vec<Name>,
        cells: Vec<Name>,
        programs: Vec<ProgramNames>,
    ) -> SpaceNames
        ensures { result ≡ record {
          name = name;
          mutexes = mutexes.items;
          semaphores = semaphores.items;
          cells = cells.items;
          programs = programs.items;
        } }
    {
        SpaceNames {
            name,
            mutexes,
            semaphores,
            cells,
            programs,
        }
    }

    /// The bytes of the space's name.
    pub fn name(&self) -> &[u8]
        ensures { result.now ≡ self.now.name }
    {
        self.name.bytes()
    }

    /// The names of the mutexes.
    pub fn mutexes(&self) -> &[Name]
        ensures { result.now ≡ self.now.mutexes }
    {
        self.mutexes.as_slice()
    }

    /// The names of the semaphores.
    pub fn semaphores(&self) -> &[Name]
        ensures { result.now ≡ self.now.semaphores }
    {
        self.semaphores.as_slice()
    }

    /// The names of the cells.
    pub fn cells(&self) -> &[Name]
        ensures { result.now ≡ self.now.cells }
    {
        self.cells.as_slice()
    }

    /// The names of the programs.
    pub fn programs(&self) -> &[ProgramNames]
        ensures { result.now ≡ self.now.programs }
    {
        self.programs.as_slice()
    }
}
