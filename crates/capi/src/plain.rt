// What the crates answer, as plain numbers.
ghost use Rattle.std.specs.Prelude.{◌≡◌};
ghost use Rattle.checker.specs.Answer.{checked_outcome};
ghost use Rattle.circuit.specs.Answer.{outcome_of};
ghost use Rattle.circuit.specs.Outcome.{taken, ◌>>=◌};
ghost use Rattle.circuit.specs.Stored.{meant};
ghost use Rattle.writer.specs.Answer.{certified_outcome};
ghost use Rattle.capi.specs.Plain.{read_answer, step_answer, certify_answer, check_answer, print_answer};

use crate::{CertifyAnswer, CheckAnswer, PrintAnswer, ReadAnswer, StepAnswer};
use checker::Passed;
use circuit::{Circuit, Refusal};
use records::Kind;
use step::Stepped;
use writer::Certified;

#[tactic(auto, unfolding(crate::specs::Plain::read_answer, circuit::specs::Answer::outcome_of, circuit::specs::Counts::counts_of))]
impl From<Result<Circuit, Refusal>> for ReadAnswer {
    ghost from_gives = { λ read a. a ≡ read_answer (outcome_of read >>= λ c. taken (meant c)) };

    fn from(read: Result<Circuit, Refusal>) -> ReadAnswer {
        match read {
            Ok(c) => {
                let counts = c.lent().counts();
                ReadAnswer {
                    latches: counts.latches,
                    readings: counts.readings,
                    controls: counts.controls,
                    ..ReadAnswer::default()
                }
            }
            Err(refusal) => ReadAnswer {
                number: refusal.fault.number(),
                place: refusal.place,
                ..ReadAnswer::default()
            },
        }
    }
}

#[tactic(auto, unfolding(crate::specs::Plain::step_answer, circuit::specs::Answer::outcome_of))]
impl From<Result<Stepped, Refusal>> for StepAnswer {
    ghost from_gives = { λ stepped a. a ≡ step_answer (outcome_of stepped) };

    fn from(stepped: Result<Stepped, Refusal>) -> StepAnswer {
        match stepped {
            Ok(Stepped { error, next }) => StepAnswer {
                error,
                next,
                ..StepAnswer::default()
            },
            Err(refusal) => StepAnswer {
                number: refusal.fault.number(),
                place: refusal.place,
                ..StepAnswer::default()
            },
        }
    }
}

#[tactic(auto, unfolding(crate::specs::Plain::certify_answer, circuit::specs::Answer::outcome_of, writer::specs::Answer::certified_outcome))]
impl From<Result<Certified, Refusal>> for CertifyAnswer {
    ghost from_gives = { λ certified a. a ≡ certify_answer (certified_outcome certified) };

    fn from(certified: Result<Certified, Refusal>) -> CertifyAnswer {
        match certified {
            Ok(Certified::Realizable(bytes)) => CertifyAnswer {
                realizable: true,
                bytes,
                ..CertifyAnswer::default()
            },
            Ok(Certified::Unrealizable(bytes)) => CertifyAnswer {
                bytes,
                ..CertifyAnswer::default()
            },
            Err(refusal) => CertifyAnswer {
                number: refusal.fault.number(),
                place: refusal.place,
                ..CertifyAnswer::default()
            },
        }
    }
}

impl From<Result<Passed, Refusal>> for CheckAnswer {
    ghost from_gives = { λ checked a. a ≡ check_answer (checked_outcome checked) };

    fn from(checked: Result<Passed, Refusal>) -> CheckAnswer {
        match checked {
            Ok(
                Passed::Replies {
                    region,
                    replies,
                    kind,
                    counts,
                },
            ) => CheckAnswer {
                kind: kind.number(),
                region,
                table: replies,
                latches: counts.latches,
                readings: counts.readings,
                controls: counts.controls,
                ..CheckAnswer::default()
            },
            Ok(
                Passed::Attacks {
                    table,
                    latches,
                    readings,
                },
            ) => CheckAnswer {
                kind: Kind::Attacks.number(),
                table,
                latches,
                readings,
                ..CheckAnswer::default()
            },
            Err(refusal) => CheckAnswer {
                number: refusal.fault.number(),
                place: refusal.place,
                ..CheckAnswer::default()
            },
        }
    }
}

#[tactic(auto, unfolding(crate::specs::Plain::print_answer, circuit::specs::Answer::outcome_of))]
impl From<Result<usize, Refusal>> for PrintAnswer {
    ghost from_gives = { λ printed a. a ≡ print_answer (outcome_of printed) };

    fn from(printed: Result<usize, Refusal>) -> PrintAnswer {
        match printed {
            Ok(bytes) => PrintAnswer {
                bytes,
                ..PrintAnswer::default()
            },
            Err(refusal) => PrintAnswer {
                number: refusal.fault.number(),
                place: refusal.place,
                ..PrintAnswer::default()
            },
        }
    }
}
