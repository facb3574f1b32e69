// The rows of runs as row numbers.
ghost use Rattle.std.specs.Prelude.{◌≡◌, true, ◌+◌, ◌-◌, ◌≤◌, length, replicate};
ghost use Rattle.rows.specs.Rows.{splice};
ghost use Rattle.rows.specs.Lists.{set_rows};
ghost use Rattle.rows.specs.Runs.{in_runs, run_lengths, Apart};

// The rows of a run, its first as entry k; and which entry is the next.
fn list_run(first: u64, past: u64, k: usize, out: &mut [u32]) -> usize
    requires { (first ≤ past) × (past ≤ 1048576) × (k + (past - first) ≤ length out.old) }
    ensures { (result ≡ k + (past - first)) × (out.new ≡ splice k out.old (set_rows first (replicate (past - first) true))) }
{
    let mut next = k;
    for row in first..past {
        out[next] = row as u32;
        next += 1;
    }
    next
}

// The rows that the runs say, as entries from the first on.
pub fn list_runs(runs: &[u32], len: u64, out: &mut [u32])
    requires { Apart 0 len runs.now × (run_lengths runs.now ≤ length out.old) × (len ≤ 1048576) }
    ensures { out.new ≡ splice 0 out.old (set_rows 0 (in_runs len runs.now)) }
{
    let mut next: usize = 0;
    for i in (0..runs.len()).step_by(2) {
        let first = runs[i] as u64;
        let past = runs[i + 1] as u64;
        next = list_run(first, past, next, out);
    }
}
