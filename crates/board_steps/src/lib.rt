//! Laws alone, which tie the running boards to the plain core. Each step of a claim board, a status board or a board that deals items
//! is a lawful event of the core, of the same seat, or two of them, and the board is a part of the core's state before and after it. So
//! what holds of the core after every list of events holds of the boards that run.
#![tactic(auto)]

mod laws;

pub use laws::{
    claim_board_runs, claim_board_steps, deal_board_runs, deal_board_steps, parts_apart,
    status_board_runs, status_board_steps, table_steps, worked_deals, worked_run,
};
