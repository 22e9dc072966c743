// How a call ended.
ghost use Rattle.std.specs.Prelude.{◌≡◌};
ghost use Rattle.sqljson_c.specs.Ended.{status_of, statement_of};

use sj_host::Unanswered;

/// How a call ended. C reads it.
#[repr(C)]
pub struct Ended {
    /// 0: done; 2: a statement is refused; 6: out of memory; 8: the statement file is too long; 10: no room in the buffer.
    pub status: u32,
    /// The number of the statement that is refused, counted from 1. Otherwise it is 0.
    pub statement: u32,
    /// What the call counts or has written. It is 0 unless the call is done.
    pub count: u64,
}

/// The call is done.
pub(crate) fn done(ended: &mut Ended, count: u64)
    ensures status { ended.new.status ≡ 0 }
    ensures statement { ended.new.statement ≡ 0 }
    ensures count { ended.new.count ≡ count }
{
    ended.status = 0;
    ended.statement = 0;
    ended.count = count;
}

/// The call gives nothing.
pub(crate) fn gives_nothing(ended: &mut Ended, why: Unanswered)
    ensures status { ended.new.status ≡ status_of why }
    ensures statement { ended.new.statement ≡ statement_of why }
    ensures count { ended.new.count ≡ 0 }
{
    ended.status = match why {
        Unanswered::Refused(_, _) => 2,
        Unanswered::Memory => 6,
        Unanswered::FileTooLong => 8,
        Unanswered::Room => 10,
    };
    ended.statement = match why {
        Unanswered::Refused(number, _) => number,
        Unanswered::Memory | Unanswered::FileTooLong | Unanswered::Room => 0,
    };
    ended.count = 0;
}
