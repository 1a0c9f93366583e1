// The board: sixteen coils, each with a switch and a label, and what a command changes on it. What a command asks for is in commands.rt.
#![tactic(auto)]

mod commands;

ghost use Rattle.std.specs.Prelude.{◌≡◌};
ghost use Rattle.board.specs.Board.{first_coil, first_board, switched, labelled, coil_at, with_coil, all_off, changed, comes_to, applied};
ghost use Rattle.board.specs.Commands.{refusal_number};
ghost use Rattle.board.specs.declared.Refusal.TheVariants.{NoCommand};

// How many coils there are, and how long a label may be.
pub const COILS: usize = 16;

pub const LONGEST_LABEL: usize = 16;

// A coil: whether it is on, and its label, of whose sixteen places the first `length` are used.
// Stays an array with a length: there is no heap, and `Clear` in specs/Laws.antt speaks of both.
#[derive(Clone, Copy)]
pub struct Coil {
    pub on: bool,
    pub length: usize,
    pub label: [u8; 16],
}

// The sixteen coils.
#[derive(Clone, Copy)]
pub struct Board {
    pub coils: [Coil; 16],
}

// What a command asks for: a coil's switch; a coil's label, with the places where the text starts and stops in the command's bytes; all coils
// off.
// Stays two places and no slice: `changed` and `AsksLabel` in specs/ speak of a text by its places.
#[derive(Clone, Copy)]
enum Change {
    Switch(usize, bool),
    Label(usize, usize, usize),
    AllOff,
}

// Why a command is refused: the check's refusal, an unknown command, an argument missing or of the wrong type, no such coil, a text too long.
#[derive(Clone, Copy, Debug, PartialEq, Eq)]
pub enum Refusal {
    NoCommand(command_map::Refusal),
    UnknownCommand,
    WrongArgument,
    NoCoil,
    LongText,
}

impl From<command_map::Refusal> for Refusal {
    ghost from_gives = { λ x r. r ≡ NoCommand x };

    fn from(refusal: command_map::Refusal) -> Refusal {
        Refusal::NoCommand(refusal)
    }
}

impl From<Refusal> for u32 {
    ghost from_gives = { λ r n. n ≡ refusal_number r };

    fn from(r: Refusal) -> u32 {
        match r {
            Refusal::NoCommand(x) => x.number(),
            Refusal::UnknownCommand => 40,
            Refusal::WrongArgument => 41,
            Refusal::NoCoil => 42,
            Refusal::LongText => 43,
        }
    }
}

impl Coil {
    // Off, with an empty label.
    fn first() -> Coil
        ensures { result ≡ first_coil }
    {
        Coil {
            on: false,
            length: 0,
            label: [0; 16],
        }
    }

    // The coil switched on or off.
    fn switched(self, on: bool) -> Coil
        ensures { result ≡ switched on self }
    {
        Coil { on, ..self }
    }

    // The coil with this label, and 0 in the places past it.
    fn labelled(self, text: &[u8]) -> Coil
        ensures { result ≡ labelled text.now self }
    {
        let mut label = [0u8; 16];
        buffer::put(&mut label, 0, text);
        Coil {
            length: text.len(),
            label,
            ..self
        }
    }
}

impl Board {
    // All off, with empty labels.
    #[tactic(auto, unfolding(crate::specs::Board::first_board))]
    pub fn first() -> Board
        ensures { result ≡ first_board }
    {
        Board {
            coils: [Coil::first(); 16],
        }
    }

    // The coil at a place, the first board's where there is none.
    // Stays without an Option: it could not fail, and `coil_at` in specs/Board.antt says what it answers.
    pub fn coil_at(self, i: usize) -> Coil
        ensures { result ≡ coil_at self i }
    {
        self.coils.get(i).copied().unwrap_or(Coil::first())
    }

    // The board with another coil at a place; as it is where there is none.
    fn with_coil(mut self, i: usize, c: Coil) -> Board
        ensures { result ≡ with_coil self i c }
    {
        if i < COILS {
            self.coils[i] = c;
        }
        self
    }

    // The board with every coil off.
    fn all_off(self) -> Board
        ensures { result ≡ all_off self }
    {
        Board {
            coils: self.coils.map(|c| c.switched(false)),
        }
    }

    // The board after a change that a command asks for.
    fn changed(self, command: &[u8], change: Change) -> Board
        ensures { result ≡ changed command.now change self }
    {
        match change {
            Change::Switch(i, on) => self.with_coil(i, self.coil_at(i).switched(on)),
            Change::Label(i, start, stop) => {
                let text = keys::part(command, start, stop);
                self.with_coil(i, self.coil_at(i).labelled(text))
            }
            Change::AllOff => self.all_off(),
        }
    }

    // The board after a command, or why the command is refused; a refused command changes nothing.
    pub fn apply(self, command: &[u8]) -> Result<Board, Refusal>
        ensures { comes_to self result ≡ applied command.now self }
    {
        let change = commands::change_of(command)?;
        Ok(self.changed(command, change))
    }
}
