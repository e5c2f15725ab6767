use crate::bench_rows::Rows;
use crate::bench_steps::Form;
use crate::blobs::{CaseBlobs, CaseHeld};
use crate::commands::parcel_of;
use ids::Id;
use outside::Parcel;
use repo_model::{Command, Numbers, Place, Question};
use std::alloc::{AllocError, Global};
use texts::Text;

/// The content of all files.
const CONTENT: &[u8] = b"abc";

/// What commands are made of.
#[derive(Drop)]
pub struct Maker {
    alloc: Global,
    rows: Rows,
    blobs: CaseBlobs,
}

impl Maker {
    /// What makes the commands about these rows; nothing is stored yet.
    pub fn new(alloc: Global, rows: Rows) -> Maker {
        Maker {
            alloc,
            rows,
            blobs: CaseBlobs::new(alloc, Vec::new(alloc)),
        }
    }

    // A blob of its own, under a number. The store keeps the last one alone.
    fn parcel(&mut self, blob: u64) -> Result<Parcel<CaseHeld>, AllocError> {
        let Ok(mut parcel) = parcel_of(&mut self.blobs, 1, CONTENT) else {
            return Err(AllocError);
        };
        parcel.blob = blob;
        Ok(parcel)
    }

    fn repo(&self) -> Result<Text, AllocError> {
        Text::new(self.alloc, self.rows.repository())
    }

    fn path(&self, n: u64) -> Result<Text, AllocError> {
        Text::new(self.alloc, self.rows.path(self.alloc, n)?.as_str())
    }

    fn look(&self, path: &str) -> Result<Command<CaseHeld>, AllocError> {
        Ok(Command::Look {
            repo: self.repo()?,
            path: Text::new(self.alloc, path)?,
            tried: Numbers::from_vec(Vec::new(self.alloc)),
        })
    }

    // A file at the path of the `n`th turn, under a draft: of the repository, or of the session 1.
    fn file(&mut self, n: u64, draft: u64, staged: bool) -> Result<Command<CaseHeld>, AllocError> {
        let path = self.path(n)?;
        let parcel = self.parcel(draft)?;
        if staged {
            return Ok(Command::Stage {
                session: 1,
                path,
                draft,
                parcel,
            });
        }
        Ok(Command::Put {
            repo: self.repo()?,
            path,
            draft,
            parcel,
        })
    }

    /// The command of the `n`th turn, with the number that one before it gave.
    pub fn command(
        &mut self,
        form: Form,
        n: u64,
        number: u64,
    ) -> Result<Command<CaseHeld>, AllocError> {
        match form {
            Form::Look | Form::Lease => self.look(self.rows.path(self.alloc, n)?.as_str()),
            Form::Document => self.look(self.rows.document(self.alloc, n)?.as_str()),
            Form::Group => self.look("org/acme/maven-metadata.xml"),
            Form::Above => self.look("org/maven-metadata.xml"),
            Form::MayPut => {
                let place = Place::Repository(self.repo()?);
                let path = self.path(n)?;
                Ok(Command::MayPut { place, path })
            }
            Form::MayStage => {
                let place = Place::Session(1);
                let path = self.path(n)?;
                Ok(Command::MayPut { place, path })
            }
            Form::Put => self.file(n, number, false),
            Form::Stage => self.file(n, number, true),
            Form::Done => Ok(Command::Done { lease: number }),
            Form::OpenSession => Ok(Command::Open { repo: self.repo()? }),
            Form::Commit => Ok(Command::Commit { session: 1 }),
            Form::Unlist => Ok(Command::Unlist {
                repo: Id::from_text(self.repo()?),
            }),
            Form::Collect => Ok(Command::Collect),
            Form::Status => Ok(Command::Ask(Question::Status)),
        }
    }
}
