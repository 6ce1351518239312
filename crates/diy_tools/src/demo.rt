ghost use Rattle.std.specs.Prelude.{◌≡◌};
ghost use Rattle.diy_words.specs.Given.{HasForm};
ghost use Rattle.diy_words.specs.declared.request.Request.TheVariants as requests;
ghost use Rattle.diy_tools.specs.{DemoAnswers.{demo_on}, ArchMachines.{machine_of}, PrintAnswers.{Prints}};
ghost use Rattle.run_status.specs.{Report.{StatusNamesLocation}};

use crate::machines::on_machine;
use demo_tests::{demo as count_tests, families_have_tests};
use diy_io::{Failed, Sink};
use diy_words::Demo;
use relax_edges::ArchName;
use run_status::{Device, Status};

/// Makes as many tests as are asked for, and prints how many there are of each family and how long they are.
#[inline(never)]
pub(crate) fn demo<O: Sink>(request: &Demo, out: &mut O) -> Status
    requires form { HasForm (requests.Demo request.now) }
    ensures prints { Prints (demo_on (machine_of request.now.arch) request.now.count) result (O.seen out.old) (O.seen out.new) }
    ensures location { StatusNamesLocation result }
{
    families_have_tests();
    let printed = on_machine!(request.arch, count_tests[O](request.count, out));
    match printed {
        Ok(()) => Status::Done,
        Err(Failed) => Status::WriteFault { of: Device::Out },
    }
}
