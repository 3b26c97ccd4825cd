// The end of a run: how much of the first store is kept, and the report, with the verdict read off that store.
#![tactic(auto)]

ghost use Rattle.std.specs.Prelude.{◌≡◌};
ghost use Rattle.stores.specs.Columns.{viewed};
ghost use Rattle.endings.specs.Ending.{kept, Readable, report_of};

use miters::{Refusal, Report};
use runs::Finish;
use stores::{Used, View};

// How much of the first store is kept after a run: nothing where it was refused.
pub fn kept(ended: Result<Finish, Refusal>) -> Used
    ensures { result ≡ kept ended }
{
    ended.map_or(Used::default(), |finish| finish.used)
}

// The report of a run, with the verdict read off the first store.
pub fn report(first: &View<'_>, n: u32, ended: Result<Finish, Refusal>) -> Report
    requires { Readable n (viewed first.now) ended }
    ensures { result ≡ report_of n (viewed first.now) ended }
{
    match ended {
        Ok(finish) => {
            let Used { nodes, values } = finish.used;
            Report {
                verdict: searches::read_verdict(first, finish.used, n),
                exponent: finish.exponent,
                steps: finish.steps,
                nodes,
                values,
            }
        }
        Err(why) => Report::from(why),
    }
}
