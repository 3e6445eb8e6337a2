// The places of an answer: the layout is specs/Layout.antt, and as a table docs/RUN.md.
ghost use Rattle.std.specs.Prelude.{◌≤◌, ◌≡◌, ◌∷◌, [], length};
ghost use Rattle.laws.specs.Sequence.{padded};
ghost use Rattle.layout.specs.Layout.{row_values, row_length, answer_row};
ghost use Rattle.rules.specs.Calls.{refused, granted};
ghost use Rattle.rules.specs.Answers.{refusal_number, job_says, pick_says, report_says, number_says};

use rules::{JobAnswer, PickAnswer, Refusal, ReportAnswer};

// How many values an answer has room for, and how many places it takes with its refusal and the number of its values.
pub const VALUES: usize = 4;

pub const ROW: usize = 2 + VALUES;

// Writes an answer: its refusal, how many values it has, and the values.
fn put_row(row: &mut [u64], refusal: u64, values: &[u64])
    requires { (length row.old ≡ row_length) × (length values.now ≤ row_values) }
    ensures { row.new ≡ answer_row (record { refusal = refusal; values = values.now }) }
{
    row[0] = refusal;
    row[1] = values.len() as u64;
    put_values(values, &mut row[2..]);
}

// The values, and zeros behind them.
fn put_values(values: &[u64], places: &mut [u64])
    requires { length values.now ≤ length places.old }
    ensures { places.new ≡ padded (length places.old) values.now }
{
    places[..values.len()].copy_from_slice(values);
    places[values.len()..].fill(0);
}

fn put_refusal(row: &mut [u64], k: Refusal)
    requires { length row.old ≡ row_length }
    ensures { row.new ≡ answer_row (refused (refusal_number k)) }
{
    put_row(row, u64::from(k.number()), &[]);
}

fn put_value(row: &mut [u64], x: u64)
    requires { length row.old ≡ row_length }
    ensures { row.new ≡ answer_row (granted (x ∷ [])) }
{
    put_row(row, 0, &[x]);
}

// Each kind of answer.

pub fn put_job(row: &mut [u64], a: Result<JobAnswer, Refusal>)
    requires { length row.old ≡ row_length }
    ensures { row.new ≡ answer_row (job_says a) }
{
    match a {
        Err(k) => put_refusal(row, k),
        Ok(
            JobAnswer {
                job: Some(job),
                putoff,
            },
        ) => put_row(row, 0, &[u64::from(job), u64::from(putoff)]),
        Ok(JobAnswer { job: None, putoff }) => put_value(row, u64::from(putoff)),
    }
}

pub fn put_pick(row: &mut [u64], a: Result<Option<PickAnswer>, Refusal>)
    requires { length row.old ≡ row_length }
    ensures { row.new ≡ answer_row (pick_says a) }
{
    match a {
        Err(k) => put_refusal(row, k),
        Ok(Some(p)) => put_row(
            row,
            0,
            &[
                u64::from(p.job),
                u64::from(p.entry),
                u64::from(p.ticket),
                u64::from(p.passed),
            ],
        ),
        Ok(None) => put_value(row, 0),
    }
}

pub fn put_report(row: &mut [u64], a: Result<ReportAnswer, Refusal>)
    requires { length row.old ≡ row_length }
    ensures { row.new ≡ answer_row (report_says a) }
{
    match a {
        Err(k) => put_refusal(row, k),
        Ok(r) => put_row(row, 0, &[u64::from(r.putoff), u64::from(r.moved.number())]),
    }
}

// The sum of a job asked about, or the length of the board text.
pub fn put_number(row: &mut [u64], a: Result<u64, Refusal>)
    requires { length row.old ≡ row_length }
    ensures { row.new ≡ answer_row (number_says a) }
{
    match a {
        Err(k) => put_refusal(row, k),
        Ok(n) => put_value(row, n),
    }
}
