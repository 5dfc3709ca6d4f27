// A log of calls as four lent lists, one row for each call: which logs are refused, and the call of a row (specs/Log.antt of nbr_replay_spec).
ghost use Rattle.std.specs.Prelude.{◌≡◌, ◌<◌, length};
ghost use Rattle.nbr_replay_spec.specs.Log.{call_at, some_over, unfit_log};
ghost use Rattle.nbr_replay_spec.specs.Tally.{EquallyLong, meant};
ghost use Rattle.nbr_replay.specs.Rows.{rows_of};

use nbr_replay_spec::Call;

// The lists of a log: row i has the number at i of each. They are four arrays since C lends them so (the C interface).
#[derive(Clone, Copy)]
pub struct Log<'a> {
    pub kinds: &'a [u8],
    pub ids: &'a [u64],
    pub values: &'a [u16],
    pub flags: &'a [u8],
}

// Whether some byte is over a limit.
fn any_over(s: &[u8], limit: u8) -> bool
    ensures { result ≡ some_over limit s.now }
{
    s.iter().any(|number| limit < *number)
}

impl Log<'_> {
    // Whether it is refused: its lists are not equally long, it has over 65535 rows, a kind over 3 or a flag over 1.
    pub fn is_unfit(&self) -> bool
        ensures { result ≡ unfit_log (rows_of self.now) }
    {
        let rows = self.kinds.len();
        let equal = (self.ids.len() == rows)
            & ((self.values.len() == rows) & (self.flags.len() == rows));
        let kind = any_over(self.kinds, nbr_replay_spec::HIGHEST_KIND);
        !equal | ((nbr_replay_spec::MOST_ROWS < rows) | (kind | any_over(self.flags, 1)))
    }

    // The call of row i. The kinds are those of C's log; what a kind does not name is not looked at.
    #[tactic(auto, using(nbr_replay_spec::proofs::LogLaws::rowWays))]
    pub(crate) fn call(&self, i: usize) -> Call
        requires { EquallyLong (rows_of self.now) × (i < length self.now.kinds.now) }
        ensures { meant result ≡ call_at (rows_of self.now) i }
    {
        let id = self.ids[i];
        let value = self.values[i];
        match self.kinds[i] {
            nbr_replay_spec::ADVERTISE => Call::Advertise { id, rank: value },
            nbr_replay_spec::REPORT => Call::Report {
                id,
                attempts: value,
                acked: self.flags[i] == 1,
            },
            nbr_replay_spec::FORGET => Call::Forget { id },
            _ => Call::Evaluate,
        }
    }
}
