// The board for C and Rust: its coils are a lent run of bytes.
// Stays in numbers, with a `&mut` for each answer: the C interface; so do all calls here.
ghost use Rattle.std.specs.Prelude.{◌≡◌};
ghost use Rattle.hgrpc.specs.Calls.{kept, part};
ghost use Rattle.hgrpc.specs.Boards.{first_answer, apply_answer, switch, switch_answer, label_answer};

use board::Board;

// Makes the lent bytes the first board, all off with empty labels: 0, or 3 where they have another length.
#[unsafe(no_mangle)]
pub extern "C" fn hgrpc_board_first(bytes: &mut [u8]) -> u32
    ensures { kept result bytes.new ≡ first_answer bytes.old }
{
    if bytes.len() != board_layout::BOARD {
        return 3;
    }
    board_layout::put_board(bytes, Board::first());
    0
}

// Applies a command to a board: 3 (bytes that are no board), 24, 25, 26, 40, 41, 42 or 43, and nothing changes; or 0.
#[unsafe(no_mangle)]
pub extern "C" fn hgrpc_board_apply(bytes: &mut [u8], command: &[u8]) -> u32
    ensures { kept result bytes.new ≡ apply_answer bytes.old command.now }
{
    let Some(board) = board_layout::read(&bytes[..]) else {
        return 3;
    };
    match board.apply(command) {
        Ok(next) => {
            board_layout::put_board(bytes, next);
            0
        }
        // The board stays, and its bytes with it: it has no others.
        Err(refusal) => u32::from(refusal),
    }
}

// Whether a coil is on: 0; or 3 (bytes that are no board) or 42 (no such coil), and false.
#[unsafe(no_mangle)]
pub extern "C" fn hgrpc_board_switch(bytes: &[u8], coil: usize, on: &mut bool) -> u32
    ensures { switch result on.new ≡ switch_answer bytes.now coil }
{
    *on = false;
    let Some(board) = board_layout::read(bytes) else {
        return 3;
    };
    if board::COILS <= coil {
        return 42;
    }
    *on = board.coil_at(coil).on;
    0
}

// Where a coil's label stands in the board's bytes, and its length: 0; or 3 (bytes that are no board) or 42 (no such coil), and 0 and 0.
#[unsafe(no_mangle)]
pub extern "C" fn hgrpc_board_label(
    bytes: &[u8],
    coil: usize,
    at: &mut usize,
    size: &mut usize,
) -> u32
    ensures { part result at.new size.new ≡ label_answer bytes.now coil }
{
    *at = 0;
    *size = 0;
    let Some(board) = board_layout::read(bytes) else {
        return 3;
    };
    if board::COILS <= coil {
        return 42;
    }
    *at = board_layout::COIL * coil + board_layout::LABEL;
    *size = board.coil_at(coil).length;
    0
}
