//! The laws of a client's session, called at a world.

ghost use Rattle.std.specs.Prelude.{[], ◌∷◌, None, Ok, Err, refl};
ghost use Rattle.std.proofs.Math.Nat.{min-le_right};
ghost use Rattle.z_types.specs.Bounds.{most_number};

use case_files::{Answer, NoAnswer};
use front_session::gateway_rules::{
    access_is_kept, courses_ask_open, fair_legs, one_answer, one_end, one_reading, rest_ends,
    runs_go_on, some_answer, units_end,
};
use z_types::World;

/// Targets that hold nothing.
#[derive(Drop)]
struct EmptyWorld {}

impl World for EmptyWorld {
    ghost told = { λ _. Unit {0} };

    ghost inner_is_told = { λ _ h. h };

    ghost search = { λ _ _. Ok 0 };

    ghost record_ = { λ _ _ _ _ _. Err (record { set = 1 ∷ 2 ∷ []; condition = 13; addinfo = [] }) };

    ghost scan = { λ _ _ _. Ok (record { position = None; entries = [] }) };

    ghost hits_are_counts = { λ _ _. min-le_right 0 most_number };

    ghost whole_is_not_gone = { λ _ _ _ _ _. refl };
}

/// Whether a call is that of a law. It answers nothing but that it was called.
pub(crate) fn is_answered(call: &str, words: &str, out: &mut Answer) -> Result<bool, NoAnswer> {
    if call != "law" {
        return Ok(false);
    }
    match words {
        "one_reading" => one_reading(),
        "some_answer" => some_answer::<EmptyWorld>(),
        "one_answer" => one_answer::<EmptyWorld>(),
        "one_end" => one_end::<EmptyWorld, EmptyWorld>(),
        "runs_go_on" => runs_go_on::<EmptyWorld>(),
        "units_end" => units_end::<EmptyWorld>(),
        "rest_ends" => rest_ends::<EmptyWorld>(),
        "fair_legs" => fair_legs::<EmptyWorld>(),
        "access_is_kept" => access_is_kept::<EmptyWorld>(),
        "courses_ask_open" => courses_ask_open::<EmptyWorld>(),
        _ => return Err(NoAnswer::Misspelt),
    }
    out.put("called");
    Ok(true)
}
