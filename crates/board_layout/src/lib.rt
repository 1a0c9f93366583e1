// The board in bytes: whether bytes are a board's, the board of bytes, and the bytes of a board.
#![tactic(auto)]

ghost use Rattle.std.specs.Prelude.{◌≡◌, suc, refl, IfSome};
ghost use Rattle.std.proofs.Common.{rules};
ghost use Rattle.fields.specs.Fields.{read};
ghost use Rattle.fields.proofs.Local.{choice_local, bytes_local, both_local, many_local, standing_local};
ghost use Rattle.board_layout.specs.BoardBytes.{coil, board, encode, decode, is_board, board_from, board_into};

use board::{Board, Coil};
use fields::Field;

// Where each part of a coil stands in the coil's bytes, and how many there are.
const ON: usize = 0;

const LENGTH: usize = ON + 1;

pub const LABEL: usize = LENGTH + 1;

pub const COIL: usize = LABEL + board::LONGEST_LABEL;

pub const BOARD: usize = board::COILS * COIL;

// How many lengths a label may have.
const LENGTHS: u8 = 17;

// A coil: its switch, its label's length and its label.
struct CoilField;

impl Field<COIL> for CoilField {
    type Value = Coil;

    ghost field = { coil };

    fn get(b: &[u8; COIL]) -> Coil {
        let mut label = [0u8; board::LONGEST_LABEL];
        label.copy_from_slice(&b[LABEL..]);
        Coil {
            on: b[ON] == 1,
            length: b[LENGTH] as usize,
            label,
        }
    }

    fn is_good(b: &[u8; COIL]) -> bool {
        (b[ON] < 2) & (b[LENGTH] < LENGTHS)
    }

    fn put(x: Coil) -> [u8; COIL] {
        let mut b = [0u8; COIL];
        b[ON] = x.on as u8;
        b[LENGTH] = (x.length % 256) as u8;
        buffer::put(&mut b, LABEL, &x.label);
        b
    }

    ghost width = { refl };

    ghost some = { Prim.search rules };

    ghost fits = { Prim.search rules };

    ghost local = { Prim.search (choice_local, bytes_local, both_local, standing_local) depth 20 };
}

// A board: its coils.
struct BoardField;

impl Field<BOARD> for BoardField {
    type Value = Board;

    ghost field = { board };

    fn get(b: &[u8; BOARD]) -> Board {
        let first = Board::first().coil_at(0);
        Board {
            coils: fields::get_all::<CoilField, COIL, 16>(first, b),
        }
    }

    fn is_good(b: &[u8; BOARD]) -> bool {
        fields::are_good::<CoilField, COIL>(b)
    }

    fn put(x: Board) -> [u8; BOARD] {
        let mut b = [0u8; BOARD];
        let coils = fields::put_all::<CoilField, COIL, 16>(&x.coils);
        buffer::put(&mut b, 0, coils.as_flattened());
        b
    }

    ghost width = { refl };

    ghost some = { Prim.search rules };

    ghost fits = { Prim.search rules };

    ghost local = { Prim.search (choice_local, bytes_local, both_local, many_local, standing_local) depth 20 };
}

// Whether bytes are a board's.
#[tactic(auto, unfolding(crate::specs::BoardBytes::is_board))]
pub fn is_board(b: &[u8]) -> bool
    ensures { result ≡ is_board b.now }
{
    fields::is_value::<BoardField, BOARD>(b)
}

// The board of its bytes, and the first board where there are more or fewer of them.
#[tactic(auto, unfolding(crate::specs::BoardBytes::board_from))]
pub fn board_of(b: &[u8]) -> Board
    ensures { result ≡ board_from b.now }
{
    fields::value_from::<BoardField, BOARD>(Board::first(), b)
}

// The board of its bytes, if they are a board's: `bytes` says that it has no others.
// Stays two calls, one that judges and one that reads: of `fields::read` the compiler makes steps for each coil, which take twice as long.
pub fn read(b: &[u8]) -> Option<Board>
    ensures value { read result ≡ decode b.now }
    ensures bytes { IfSome result (λ x. b.now ≡ encode x) }
{
    if !is_board(b) {
        return None;
    }
    Some(board_of(b))
}

// Puts a board into its bytes; where there are more or fewer of them, they stay as they are.
#[tactic(auto, unfolding(crate::specs::BoardBytes::board_into))]
pub fn put_board(b: &mut [u8], x: Board)
    ensures { b.new ≡ board_into b.old x }
{
    fields::value_into::<BoardField, BOARD>(b, x);
}
